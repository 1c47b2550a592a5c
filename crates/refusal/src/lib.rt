// The refusals of documents 01 and 02: one enum, made where the fault is found and numbered here, once.
#![tactic(auto)]

ghost use Rattle.std.specs.Prelude.{◌≡◌};
ghost use Rattle.law.specs.Refusal.{code_of, value_of, within};
ghost use Rattle.refusal.specs.Shown.{shown, number_of, also_of, listed};

// A refusal and, where a row or a place is also returned, the row or the place that goes with it.
#[derive(Clone, Copy, Debug, PartialEq, Eq, Hash)]
pub enum Refusal {
    NotWholeRows,
    NoRows,
    ManyRows,
    Id(u64),
    T(u64),
    D(u64),
    C(u64),
    K(u64),
    M(u64),
    Repeated(u64),
    Unschedulable(u64),
    Text(u64),
    Room,
    State,
    Clock,
    P(u64),
    NotOld(u64),
    Log(u64),
}

impl Refusal {
    // The number of a refusal in documents 01 and 02, and the row or the place that goes with it.
    fn parts(self) -> (u64, Option<u64>)
        ensures number { result.0 ≡ number_of self }
        ensures place { listed result.1 ≡ also_of self }
    {
        match self {
            Refusal::NotWholeRows => (1, None),
            Refusal::NoRows => (2, None),
            Refusal::ManyRows => (3, None),
            Refusal::Id(row) => (4, Some(row)),
            Refusal::T(row) => (5, Some(row)),
            Refusal::D(row) => (6, Some(row)),
            Refusal::C(row) => (7, Some(row)),
            Refusal::K(row) => (8, Some(row)),
            Refusal::M(row) => (9, Some(row)),
            Refusal::Repeated(row) => (10, Some(row)),
            Refusal::Unschedulable(row) => (11, Some(row)),
            Refusal::Text(place) => (12, Some(place)),
            Refusal::Room => (13, None),
            Refusal::State => (14, None),
            Refusal::Clock => (15, None),
            Refusal::P(row) => (16, Some(row)),
            Refusal::NotOld(row) => (17, Some(row)),
            Refusal::Log(place) => (18, Some(place)),
        }
    }

    // The number of a refusal in documents 01 and 02.
    pub fn number(self) -> u64
        ensures { result ≡ code_of (shown self) }
    {
        self.parts().0
    }

    // The row or the place that goes with a refusal, where there is one.
    pub fn place(self) -> Option<u64>
        ensures { listed result ≡ also_of self }
    {
        self.parts().1
    }

    // The row or the place that goes with a refusal, 0 where there is none.
    pub fn place_or_zero(self) -> u64
        ensures { result ≡ value_of (shown self) }
    {
        self.place().unwrap_or(0)
    }
}

// Whether x lies in low..high, both ends included.
#[tactic(auto, unfolding(law::specs::Refusal::within))]
pub fn is_within(low: u64, high: u64, x: u64) -> bool
    ensures { result ≡ within low high x }
{
    (low..=high).contains(&x)
}
