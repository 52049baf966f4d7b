// The refusals of each call, with their numbers and spots (docs/FORMATS.md, "Verdicts").
#![tactic(auto)]

ghost use Rattle.std.specs.Prelude.{ℕ, ◌≡◌};
ghost use Rattle.refusals.specs.Numbers.{text_number, text_spot, line_number, line_spot, check_number, check_spot, fill_number, fill_spot};

// Why a program text is refused, rows 1 to 7, each with its spot.
#[derive(Clone, Copy, PartialEq, Eq)]
pub enum TextRefusal {
    Overlong(usize),
    Malformed(usize),
    TooManyAtoms(usize),
    UnknownAtom(usize),
    Unordered(usize),
    TooManyRules(usize),
    BodiesFull(usize),
}

// Why no line is written: the text is refused, the buffer is short, or there is no such clause, each with its spot.
#[derive(Clone, Copy, PartialEq, Eq)]
pub enum LineRefusal {
    Text(TextRefusal),
    ShortBuffer(usize),
    NoSuchClause(usize),
}

// Why no model is shown, each with its spot.
#[derive(Clone, Copy, PartialEq, Eq)]
pub enum CheckRefusal {
    Text(TextRefusal),
    ShortBuffer(usize),
    OverlongAnswer(usize),
    MalformedAnswer(usize),
    NoModelOffered,
    StrayVariable(usize),
    RepeatedVariable(usize),
    FalseClause(usize),
}

// Why a set is not filled out, each with its spot.
#[derive(Clone, Copy, PartialEq, Eq)]
pub enum FillRefusal {
    Text(TextRefusal),
    ShortBuffer(usize),
    BadSet(usize),
    Unfounded(usize),
}

// A refusal's number and spot.
pub trait Refusal: Copy {
    ghost number_of: { Self → ℕ };

    ghost spot_of: { Self → ℕ };

    fn number(self) -> u8
        ensures { result ≡ number_of self };

    fn spot(self) -> usize
        ensures { result ≡ spot_of self };
}

impl Refusal for TextRefusal {
    ghost number_of = { text_number };

    ghost spot_of = { text_spot };

    fn number(self) -> u8 {
        match self {
            TextRefusal::Overlong(_) => 1,
            TextRefusal::Malformed(_) => 2,
            TextRefusal::TooManyAtoms(_) => 3,
            TextRefusal::UnknownAtom(_) => 4,
            TextRefusal::Unordered(_) => 5,
            TextRefusal::TooManyRules(_) => 6,
            TextRefusal::BodiesFull(_) => 7,
        }
    }

    fn spot(self) -> usize {
        match self {
            TextRefusal::Overlong(spot)
            | TextRefusal::Malformed(spot)
            | TextRefusal::TooManyAtoms(spot)
            | TextRefusal::UnknownAtom(spot)
            | TextRefusal::Unordered(spot)
            | TextRefusal::TooManyRules(spot)
            | TextRefusal::BodiesFull(spot) => spot,
        }
    }
}

impl Refusal for LineRefusal {
    ghost number_of = { line_number };

    ghost spot_of = { line_spot };

    fn number(self) -> u8 {
        match self {
            LineRefusal::Text(refusal) => refusal.number(),
            LineRefusal::ShortBuffer(_) => 8,
            LineRefusal::NoSuchClause(_) => 9,
        }
    }

    fn spot(self) -> usize {
        match self {
            LineRefusal::Text(refusal) => refusal.spot(),
            LineRefusal::ShortBuffer(spot) | LineRefusal::NoSuchClause(spot) => spot,
        }
    }
}

impl Refusal for CheckRefusal {
    ghost number_of = { check_number };

    ghost spot_of = { check_spot };

    fn number(self) -> u8 {
        match self {
            CheckRefusal::Text(refusal) => refusal.number(),
            CheckRefusal::ShortBuffer(_) => 8,
            CheckRefusal::OverlongAnswer(_) => 10,
            CheckRefusal::MalformedAnswer(_) => 11,
            CheckRefusal::NoModelOffered => 12,
            CheckRefusal::StrayVariable(_) => 13,
            CheckRefusal::RepeatedVariable(_) => 14,
            CheckRefusal::FalseClause(_) => 16,
        }
    }

    fn spot(self) -> usize {
        match self {
            CheckRefusal::Text(refusal) => refusal.spot(),
            CheckRefusal::NoModelOffered => 0,
            CheckRefusal::ShortBuffer(spot)
            | CheckRefusal::OverlongAnswer(spot)
            | CheckRefusal::MalformedAnswer(spot)
            | CheckRefusal::StrayVariable(spot)
            | CheckRefusal::RepeatedVariable(spot)
            | CheckRefusal::FalseClause(spot) => spot,
        }
    }
}

impl Refusal for FillRefusal {
    ghost number_of = { fill_number };

    ghost spot_of = { fill_spot };

    fn number(self) -> u8 {
        match self {
            FillRefusal::Text(refusal) => refusal.number(),
            FillRefusal::ShortBuffer(_) => 8,
            FillRefusal::BadSet(_) => 17,
            FillRefusal::Unfounded(_) => 18,
        }
    }

    fn spot(self) -> usize {
        match self {
            FillRefusal::Text(refusal) => refusal.spot(),
            FillRefusal::ShortBuffer(spot)
            | FillRefusal::BadSet(spot)
            | FillRefusal::Unfounded(spot) => spot,
        }
    }
}

impl From<TextRefusal> for LineRefusal {
    ghost use Rattle.refusals.specs.declared.LineRefusal.TheVariants.{Text};

    ghost from_gives = { λ refusal result. result ≡ Text refusal };

    fn from(refusal: TextRefusal) -> LineRefusal {
        LineRefusal::Text(refusal)
    }
}

impl From<TextRefusal> for CheckRefusal {
    ghost use Rattle.refusals.specs.declared.CheckRefusal.TheVariants.{Text};

    ghost from_gives = { λ refusal result. result ≡ Text refusal };

    fn from(refusal: TextRefusal) -> CheckRefusal {
        CheckRefusal::Text(refusal)
    }
}

impl From<TextRefusal> for FillRefusal {
    ghost use Rattle.refusals.specs.declared.FillRefusal.TheVariants.{Text};

    ghost from_gives = { λ refusal result. result ≡ Text refusal };

    fn from(refusal: TextRefusal) -> FillRefusal {
        FillRefusal::Text(refusal)
    }
}
