// The kinds of frames, and the call of a kind with its fields.
#![tactic(auto)]

ghost use Rattle.std.specs.Prelude.{◌≡◌, ◌<◌, ◌⊎◌, MatchResult};
ghost use Rattle.protocol.specs.Lines.{called_by};
ghost use Rattle.kinds.specs.Kinds.{field_in, number_of_kind, product_of};

use model::{Ask, Call, Change, Product};

// The kinds of frames; those on sessions and reads name the product that they are for.
#[derive(Clone, Copy, PartialEq, Eq, Debug)]
pub enum Kind {
    Assign,
    Withdraw,
    Permit,
    Revoke,
    Forward,
    Open(Product),
    Conflicting(Product),
    Add(Product),
    Read(Product),
    Show(Product),
    Mandate,
}

// A number that no kind has.
#[derive(Clone, Copy, PartialEq, Eq, Debug)]
pub struct NoSuchKind(pub usize);

// The product of a number, among those of kinds that have one.
#[tactic(auto, unfolding(crate::specs::Kinds::product_of))]
fn product_of(number: usize) -> Product
    ensures { result ≡ product_of number }
{
    if number < 11 {
        Product::Server
    } else {
        Product::TermBank
    }
}

// The kind that has this number. The numbers of the two products share an arm: they come in any order,
// and a branch that tells them apart costs more, where it is mispredicted, than the read.
#[tactic(auto, using(crate::proofs::Laws::numbered), unfolding(crate::specs::Kinds::number_of_kind, crate::specs::Kinds::product_of))]
impl TryFrom<usize> for Kind {
    type Error = NoSuchKind;

    ghost try_from_gives = { λ n r. MatchResult r (λ kind. number_of_kind kind ≡ n) (λ e. (e.0 ≡ n) × ((n < 1) ⊎ (16 < n))) };

    fn try_from(number: usize) -> Result<Self, NoSuchKind> {
        let product = product_of(number);
        match number {
            1 => Ok(Kind::Assign),
            2 => Ok(Kind::Withdraw),
            3 => Ok(Kind::Permit),
            4 => Ok(Kind::Revoke),
            5 => Ok(Kind::Forward),
            6 | 11 => Ok(Kind::Open(product)),
            7 | 12 => Ok(Kind::Conflicting(product)),
            8 | 13 => Ok(Kind::Add(product)),
            9 | 14 => Ok(Kind::Read(product)),
            10 | 15 => Ok(Kind::Show(product)),
            16 => Ok(Kind::Mandate),
            0 | 17.. => Err(NoSuchKind(number)),
        }
    }
}

// The fields of a call; a kind takes the first ones of the four, and zeros stand behind them.
// Kept: one struct for all kinds. With an enum for each number of fields there are two ways through each arm
// of the match over kinds (docs/DECISIONS.md).
#[derive(Clone, Copy)]
pub struct Fields {
    pub numbers: [usize; 4],
    pub chosen: u64,
}

// The call of a kind with these fields, of which a kind takes the first ones.
#[tactic(auto, using(crate::proofs::Laws::open_called, crate::proofs::Laws::conflicting_called, crate::proofs::Laws::add_called, crate::proofs::Laws::read_called, crate::proofs::Laws::show_called), unfolding(crate::specs::Kinds::field_in, crate::specs::Kinds::number_of_kind, protocol::specs::Lines::called_by))]
pub fn call_of(kind: Kind, fields: Fields) -> Call
    ensures { result ≡ called_by (number_of_kind kind) (field_in fields) fields.chosen }
{
    let [a, b, c, d] = fields.numbers;
    // 03, 04 and 10 have a role and a database.
    let (role, database) = (a, b);
    match kind {
        Kind::Assign => Call::Table(Change::Assign { user: a, role: b }),
        Kind::Withdraw => Call::Table(Change::Withdraw { user: a, role: b }),
        Kind::Permit => Call::Table(Change::Permit { role, database }),
        Kind::Revoke => Call::Table(Change::Revoke { role, database }),
        Kind::Forward => Call::Table(Change::Forward { from: a, to: b }),
        Kind::Open(product) => Call::Session {
            product,
            session: a,
            ask: Ask::Open,
        },
        Kind::Conflicting(product) => Call::Session {
            product,
            session: a,
            ask: Ask::Conflicting { root: b },
        },
        Kind::Add(product) => Call::Session {
            product,
            session: a,
            ask: Ask::Add {
                root: b,
                chosen: fields.chosen,
            },
        },
        Kind::Read(product) => Call::Read {
            product,
            user: a,
            session: b,
            flow: c,
            database: d,
        },
        Kind::Show(product) => Call::Session {
            product,
            session: a,
            ask: Ask::Show { flow: b },
        },
        Kind::Mandate => Call::Table(Change::Mandate { role, database }),
    }
}
