//! All that is promised of Nebelzahn, in one file.
//!
//! A function here does nothing. Its clause is a theorem about every list of calls, every input or
//! every engine, and the check proves it. The contracts of the code go by the same definitions, so
//! that the theorems are about the code. The records that the clauses name stand under specs/ of the
//! crate in their import, each field beside the sentence that it settles; docs/PROMISES.md lays
//! sentences and clauses side by side.
#![tactic(auto)]

ghost use Rattle.std.specs.Prelude.{ℕ, ◌<◌, ◌≡◌, ◌^◌, ◌↔◌, Bool, true, List, get_or};
ghost use Rattle.sets.specs.Sets.{has, set_of};
ghost use Rattle.rows.specs.Meaning.{LevelMeans, ReachMeans, ReachSize, EnteredMeans, StruckMeans};
ghost use Rattle.tables.specs.declared.Tables.{Tables};
ghost use Rattle.tables.specs.Meaning.{ReadersMean, ReadsMean, HeldMeans, OverlapsMean, OverlapsItself, ParentsMean, UnheldHasNone, ChangesMean, FreshEmpty};
ghost use Rattle.model.specs.declared.Engine.{Engine};
ghost use Rattle.model.specs.declared.Sessions.{Sessions};
ghost use Rattle.model.specs.declared.calls.Call.{Call};
ghost use Rattle.model.specs.declared.calls.Product.{Product};
ghost use Rattle.model.specs.declared.calls.Verdict.TheVariants.{Granted};
ghost use Rattle.model.specs.State.{fresh};
ghost use Rattle.model.specs.Calls.{verdict, after};
ghost use Rattle.model.specs.Limits.{Limits};
ghost use Rattle.model.specs.Table.{Tabled};
ghost use Rattle.model.specs.Demands.{Demand1, Demand3, engine_at, run_of};
ghost use Rattle.model.specs.Meaning.{NumbersMean, SetsMean, QueryMeans, Means, ValueMeans, ReadMeans, ShowMeans, FreshMeans};
ghost use Rattle.model.specs.Lasting.{Lasting};
ghost use Rattle.model.specs.Products.{Products};
ghost use Rattle.model.specs.Steps.{StepsMean, Steps};
ghost use Rattle.model.specs.Mandates.{NoMandate, Before, Mandates};
ghost use Rattle.model.specs.Versions.{Versions};
ghost use Rattle.graph.specs.Graph.{Joined};
ghost use Rattle.protocol.specs.Widths.{Widths};
ghost use Rattle.protocol.specs.Demands.{Exact, VersionsTold, ByteDemands, Piece, InPieces, Progress};
ghost use Rattle.protocol.specs.Products.{ProductAnswers, ProductBytes};
ghost use Rattle.worked.specs.Worked.{Settled};
ghost use Rattle.worked.specs.Needed.{Needed};
ghost use Rattle.digits.specs.Tables.{high_table, low_table};
ghost use Rattle.decoding.specs.Frames.{next_by, LineAt};
ghost use Rattle.engine.specs.Changed.{ChangedMeans};
ghost use Rattle.strict.specs.Strict.{Strict, AsAnswered, StrictFirst, StrictRun};
ghost use Rattle.carrying.specs.declared.OldEngine.{OldEngine};
ghost use Rattle.carrying.specs.Carrying.{Carried};
ghost use Rattle.carrying.specs.Moving.{Moved, Led};
ghost use Rattle.trace.specs.Lines.{LinesRead};
ghost use Rattle.trace.specs.Recorded.{Replays, RecordedRun};
ghost use Rattle.given.specs.Given.{ProductsMean, ValuesMean};
ghost use Rattle.today.specs.Today.{TodayMeans};
ghost use Rattle.streams.specs.Feeds.{FeedsMean};

// ---- every byte

/// For every input, the specification allows what the program writes, and no other output.
pub fn every_byte()
    ensures { (input : List ℕ) → Exact input }
{}

/// Each line of an input is a call. What is promised of every call and of every list of calls holds of
/// these, and each call's answer stands in its place of the output.
pub fn every_line()
    ensures { (input : List ℕ) → ByteDemands input }
{}

/// Input may come in any pieces, with any room for answers. Once no whole line is left of the last
/// piece, what they write and what the end of input adds is what is written for the input in one.
pub fn any_pieces()
    ensures { (pieces : List Piece) → InPieces pieces }
{}

/// A piece is taken from its front. Where the longest answer has room, a piece with a whole line in it
/// gets shorter.
pub fn every_piece_moves_on()
    ensures { (room : ℕ) (e : Engine) (bytes : List ℕ) → Progress room e bytes }
{}

/// From any place of an input of bytes, the next line goes up to the next line feed and is the call
/// that it reads as, by the tables of the digits. Where no line feed follows there is none.
pub fn next_line()
    ensures { (input : List ℕ) (place : ℕ) → ((i : ℕ) → get_or input i 0 < 256)
        → LineAt input place (next_by high_table low_table input place) }
{}

/// Line feeds are counted by the byte 0a, and no other byte counts.
pub fn line_feeds()
    ensures { FeedsMean }
{}

/// The worked run, the same in the term bank, a run with a mandate, and one with a frame of every kind
/// and a line of every malformed sort, all in literal bytes: the program writes these answers, and the
/// specification allows them.
pub fn worked_runs()
    ensures { Settled }
{}

/// How many digits each field, a version and a role set have, and how long the longest frame and the
/// longest answer are.
pub fn widths()
    ensures { Widths }
{}

// ---- every call

/// Users 0 to 255, roles and databases 0 to 63, two products, sessions 0 to 15 of each, 8 flows a session,
/// versions 0 to 4294967295; so 32 sessions in all, 256 places for flows, and 2,048 role sets.
pub fn limits()
    ensures { Limits }
{}

/// Each call is checked by the rows of the printed refusal table that name its kind, from the first to
/// the last, but that forwarding is held to 5 before 3, and revoking to 15 before 9.
pub fn refusal_table()
    ensures { Tabled }
{}

/// Whatever an engine holds, a call that meets a row of the refusal table is refused with the number
/// of the first such row, and the engine stays as it is. Every other call is accepted, and ends with
/// the answer that the specification gives it.
pub fn every_call()
    ensures { (e : Engine) (c : Call) → Demand1 e c }
{}

/// A call by value gives back its answer and the engine after it.
pub fn given_back()
    ensures { (e : Engine) (c : Call) → ChangedMeans e c }
{}

/// A constraint is shown as it is kept. Where showing is refused, the number is all that is told.
pub fn shown_constraint()
    ensures { (e : Engine) (p : Product) (s f : ℕ) → ShowMeans e p s f }
{}

// ---- sets and tables, of any size

/// A set of the numbers below n that pass a test has those and no other, whatever n is.
pub fn set_members()
    ensures { (n : ℕ) (p : ℕ → Bool) (i : ℕ) → (has (set_of n p) i ≡ true) ↔ ((i < n) × (p i ≡ true)) }
{}

/// Two sets with the same members are the same, whatever their size.
pub fn same_members()
    ensures { (n x y : ℕ) → x < 2 ^ n → y < 2 ^ n → ((i : ℕ) → i < n → has x i ≡ has y i) → x ≡ y }
{}

/// The databases of level k are those to which at most k steps of forwarding lead from the root.
pub fn reach_by_steps()
    ensures { LevelMeans }
{}

/// The reach of a root is the root and every database to which forwarding leads from it, in one or
/// more steps.
pub fn reach()
    ensures { ReachMeans }
{}

/// The reach of a database that there is has at least one database, and no more than there are.
pub fn reach_size()
    ensures { ReachSize }
{}

/// A pair that is entered in a row of a table is there, and every other pair is as before.
pub fn pair_entered()
    ensures { EnteredMeans }
{}

/// A pair that is struck out of a row of a table isn't there, and every other pair is as before.
pub fn pair_struck_out()
    ensures { StruckMeans }
{}

/// The readers of a reach are the roles that may read a database in it.
pub fn readers()
    ensures { ReadersMean }
{}

/// A user may statically read a flow exactly where one of the user's roles may read a database in its
/// reach.
pub fn static_reading()
    ensures { ReadsMean }
{}

/// A role is held exactly where some user holds it.
pub fn holders()
    ensures { HeldMeans }
{}

/// Two roles overlap exactly where some user holds both.
pub fn overlapping()
    ensures { OverlapsMean }
{}

/// A role overlaps itself exactly where anybody holds it.
pub fn overlapping_itself()
    ensures { OverlapsItself }
{}

/// The parents of a set of roles are the roles that some role of the set overlaps.
pub fn parents()
    ensures { ParentsMean }
{}

/// A role that nobody holds has no parent.
pub fn parents_of_unheld()
    ensures { UnheldHasNone }
{}

/// Each change of the tables changes its own pair in its own table, and nothing else.
pub fn table_changes()
    ensures { (t : Tables) → ChangesMean t }
{}

/// Fresh tables are empty.
pub fn fresh_tables()
    ensures { FreshEmpty }
{}

// ---- flows, versions and reads

/// Which roles conflict, which choice is refused, which roles a role set has and which read is
/// linkable are as the unlinkability model says, for any number of roles, users, databases and flows.
pub fn session_sets()
    ensures { (roles users databases flows : ℕ) (t : Tables) → SetsMean roles users databases flows t }
{}

/// Asked for the conflicting roles, an engine tells those that conflict with a flow of that root
/// counted in.
pub fn conflicts_asked()
    ensures { (e : Engine) (p : Product) (s root : ℕ) → QueryMeans e p s root }
{}

/// What each accepted call leaves behind it, in every list of calls: the pair, who gets a new version,
/// the opening, the flow and its constraint.
pub fn accepted_calls()
    ensures { (cs : List Call) (i : ℕ) (c : Call) → verdict (engine_at cs i) c ≡ Granted
        → Means (engine_at cs i) (after (engine_at cs i) c) c }
{}

/// The same of changes and openings for any engine by value that has 256 user versions and, where a
/// session is opened, no flow in it. Of every engine, questions and reads change nothing.
pub fn accepted_by_value()
    ensures { (e : Engine) → ValueMeans e }
{}

/// An addition stores what the model says, and of every flow that is there its root, its reach and its
/// constraint stay, whatever calls follow.
pub fn flows_last()
    ensures { (cs : List Call) → Lasting cs }
{}

/// Whatever an engine holds, exactly which reads are refused as changed, which as linkable, and which
/// are granted, and that a mandate passes both.
pub fn every_read()
    ensures { (e : Engine) (p : Product) (u s f d : ℕ) → ReadMeans e p u s f d }
{}

/// A fresh engine has 256 user versions of zero, system version 0, empty tables and no open session.
pub fn fresh_engine()
    ensures { FreshMeans fresh }
{}

// ---- every list of calls

/// In every list of calls the engine holds what the ledger holds and refuses what the ledger refuses,
/// and the rule for linkable is exact. No user is granted reads of two flows of one session of one
/// product where neither read is under a mandate, the user holds a denied role of the flow added later
/// when it is read, and in between no role was withdrawn from the user nor a permission from a role
/// that the user then held.
pub fn every_list()
    ensures { (cs : List Call) → Demand3 (run_of cs) }
{}

/// In a session whose additions choose every conflicting role, no user is granted reads of two flows,
/// whatever roles the user holds, where neither read is under a mandate and in between nothing was
/// taken back, as above.
pub fn strict_choices()
    ensures { (cs : List Call) (p : Product) (s : ℕ) → Strict cs p s → StrictFirst cs p s }
{}

/// To choose every conflicting role is to choose what the engine answers when asked for them just
/// before.
pub fn strict_as_answered()
    ensures { (cs : List Call) (p : Product) (s : ℕ) → Strict cs p s ↔ AsAnswered cs p s }
{}

/// There is such a session with two flows. In it the second flow is granted once a role is withdrawn,
/// so the premise about what is taken back is needed.
pub fn strict_run()
    ensures { StrictRun }
{}

/// Each premise of the promise about two flows is needed, and each part of it, and so is that of the
/// rule for linkable: without it there is a list of calls that breaks the promise.
pub fn premises_needed()
    ensures { Needed }
{}

// ---- two products on one directory

/// Every session of either product has a number of its own among the engine's, and one above the limit
/// has none.
pub fn sessions_apart()
    ensures { NumbersMean }
{}

/// By the numbers that calls return, one product's answers don't depend on the other's calls where
/// forwarding comes before flows, both products are served alike, and forwarding closes with the first
/// flow of either.
pub fn products_by_number()
    ensures { Products }
{}

/// The same of whole answer lines.
pub fn products_by_answer()
    ensures { ProductAnswers }
{}

/// The same of the program's input and output.
pub fn products_in_bytes()
    ensures { ProductBytes }
{}

// ---- the paper's steps

/// Each of the three steps gives what the model defines, member by member.
pub fn each_step()
    ensures { (t : Tables) → StepsMean t }
{}

/// In every list of calls, what an addition stores for a flow is the third step's result from the
/// second's from the first's.
pub fn steps_of_additions()
    ensures { (cs : List Call) → Steps cs }
{}

/// For any tables, the three steps one after the other, as the code takes them, come to the role set.
/// Above the last session they find nobody.
pub fn steps_joined()
    ensures { Joined }
{}

// ---- reading by duty

/// Which mandates are accepted, that no call lifts one nor the permission that it stands on, and that
/// a read under one is granted where no row before 13 is met.
pub fn mandates()
    ensures { (cs : List Call) → Mandates cs }
{}

/// In a list in which no mandate is accepted no read is under one, and the rule for linkable and the
/// promise about two flows hold with no word of mandates.
pub fn without_mandates()
    ensures { (cs : List Call) → NoMandate cs → Before cs }
{}

// ---- versions of 32 bits

/// No version passes 4294967295, and only a change at that limit that would give somebody a new
/// version is refused with 9.
pub fn versions()
    ensures { (cs : List Call) → Versions cs }
{}

/// A version is told by eight digits, and no two versions by the same.
pub fn versions_told()
    ensures { VersionsTold }
{}

/// An engine of the old width is carried over with each version's number and all else unchanged, and
/// answers every read as before.
pub fn carried_over()
    ensures { (old : OldEngine) → Carried old }
{}

/// What is promised of every list of calls holds of every run that moves: calls to a fresh engine of
/// the old width, carrying over, calls to the engine. The two reads may stand on either side.
pub fn moved_runs()
    ensures { (cs ds : List Call) → Moved cs ds }
{}

/// Whatever calls led the old engine to, as many calls lead the engine to: the same ones, but where
/// the old engine had no version left.
pub fn moved_as_led()
    ensures { (cs : List Call) → Led cs }
{}

// ---- recorded runs

/// What is printed of a file: the number of the first pair whose answers differ, zeros where none
/// does, or 16 where the file is too long or, with no pair that differs, its last line is a frame. It
/// is one of these, whatever the file.
pub fn replayed_files()
    ensures { (file : List ℕ) → Replays file }
{}

/// Every input of whole lines can be recorded. In a file of at most 1,048,576 bytes that pairs its
/// lines with an output that the specification allows, no pair differs.
pub fn recorded_runs()
    ensures { (input : List ℕ) → RecordedRun input }
{}

/// From position to position a reader of a file hands out every line once, in order, and at the end
/// nothing.
pub fn lines_read()
    ensures { (text : List ℕ) → LinesRead text }
{}

// ---- the library for C and Rust, and the picture

/// For a caller in C product 0 is the server and 1 the term bank, and any other number gets 2.
pub fn products_in_c()
    ensures { (e : Engine) → ProductsMean e }
{}

/// A caller's values stay as they were where a call is refused, and are those of its answer where it
/// is accepted.
pub fn values_in_c()
    ensures { (e : Engine) → ValuesMean e }
{}

/// A role conflicts today exactly where some user holds it and has, for two different flows of the
/// session, a role that may read a database in the flow's reach.
pub fn conflicts_today()
    ensures { (t : Tables) (sessions : Sessions) (s : ℕ) → TodayMeans t sessions s }
{}
