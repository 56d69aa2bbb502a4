ghost use Rattle.std.specs.Prelude.{◌≡◌};
ghost use Rattle.items.specs.Question.{number};

// Why an operation refuses: one case for each question of documents 01 and 02 that can get a no, with the number that they give it.
#[derive(Clone, Copy, Debug, PartialEq, Eq)]
pub enum Refusal {
    FileTooLong = 1,
    NoFactCount = 2,
    FileCutOff = 3,
    UnknownKind = 4,
    BodyCutOff = 5,
    FactTooHigh = 6,
    NoRuleOpened = 7,
    TooManyRules = 8,
    WrongRuleCount = 9,
    BytesAfterEnd = 10,
    NotRuleItems = 11,
    NotAnException = 12,
    NamedTwice = 13,
    NotAllNamed = 14,
    WrongSetLength = 21,
    NotZeroOrOne = 22,
    NotStepItems = 23,
    AskedFactTooHigh = 24,
    FactMarksShort = 31,
    RuleMarksShort = 32,
    StepsShort = 33,
    OrderShort = 34,
    TooManyConstraints = 40,
    NoStableSet = 41,
    NotDerived = 50,
    RuleTooLong = 51,
    NotLayered = 52,
    FactsOutOfRange = 53,
    RulesOutOfRange = 54,
    LoadShort = 55,
    UnreadAfterRule = 56,
}

impl Refusal {
    // The number that the documents give the refusal.
    pub fn number(self) -> u8
        ensures { result ≡ number self }
    {
        self as u8
    }
}
