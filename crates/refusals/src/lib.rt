// What a caller is told: one enum of all refusals, and their numbers. Document 01, "What a caller is told": the table's rows, in
// its order. Every answer of the heap and the doors is a `Result` with this as its error.
#![tactic(auto)]

ghost use Rattle.std.specs.Prelude.{◌≡◌};
ghost use Rattle.rules.specs.Refusals.{number_of};
ghost use Rattle.refusals.specs.Told.{refusal_of};
ghost use Rattle.refusals.specs.declared.Refusal.TheVariants.{Malformed};

use leaf_nodes::Fault;

// A malformed datum also says what is wrong and at which node, counted from 0 in the datum's order.
#[derive(Clone, Copy, Debug, PartialEq, Eq)]
pub enum Refusal {
    BadSetup,
    Unsound,
    ShortScratch,
    Malformed(Fault, u64),
    OverLimit,
    EarlyLabel,
    NoSuchSlot,
    WrongCell,
    NoSlots,
    NoRoom,
    ShortOutput,
}

impl Refusal {
    // The paper's number of a refusal.
    #[tactic(auto, unfolding(rules::specs::Refusals::number_of))]
    pub fn number(self) -> u32
        ensures { result ≡ number_of (refusal_of self) }
    {
        match self {
            Refusal::BadSetup => 10,
            Refusal::Unsound => 20,
            Refusal::ShortScratch => 19,
            Refusal::Malformed(_, _) => 11,
            Refusal::OverLimit => 12,
            Refusal::EarlyLabel => 13,
            Refusal::NoSuchSlot => 14,
            Refusal::WrongCell => 15,
            Refusal::NoSlots => 16,
            Refusal::NoRoom => 17,
            Refusal::ShortOutput => 18,
        }
    }
}

// What a caller gives as a value is one node, of number 0.
impl From<Fault> for Refusal {
    ghost from_gives = { λ fault r. r ≡ Malformed fault 0 };

    fn from(fault: Fault) -> Refusal {
        Refusal::Malformed(fault, 0)
    }
}
