// The replies to callers in C and Rust, in plain numbers, and each answer as a reply. A refusal has its number and 0 for every other value. Internal.

#![tactic(auto, unfolding(crate::specs::Reply::file_of, crate::specs::Reply::counts_of, crate::specs::Reply::verdict_of, crate::specs::Reply::count_of, crate::specs::Reply::reply_of_choice))]

ghost use Rattle.std.specs.Prelude.{◌≡◌};
ghost use Rattle.replies.specs.Reply.{file_of, counts_of, verdict_of, count_of, reply_of_choice};

use better::answer::Choice;
use items::lengths::STEP_WIDTH;
use items::refusal::Refusal;
use reader::answer::AcceptedFile;
use run::answer::Ran;

// An accepted file, and the bytes of one step.
#[repr(C)]
#[derive(Clone, Copy)]
pub struct FileReply {
    pub refusal: u32,
    pub facts: u32,
    pub rules: u32,
    pub exceptions: u32,
    pub constraints: u32,
    pub step_bytes: u32,
}

// A run.
#[repr(C)]
#[derive(Clone, Copy)]
pub struct RunCounts {
    pub refusal: u32,
    pub stages: u32,
    pub steps: u32,
}

// 1 for stable or yes, 0 for not.
#[repr(C)]
#[derive(Clone, Copy)]
pub struct Verdict {
    pub refusal: u32,
    pub verdict: u32,
}

// One count.
#[repr(C)]
#[derive(Clone, Copy)]
pub struct Count {
    pub refusal: u32,
    pub count: u32,
}

// Which of two orders: 1 for the first, 2 for the second.
#[repr(C)]
#[derive(Clone, Copy)]
pub struct ChoiceReply {
    pub refusal: u32,
    pub which: u32,
}

// The counts of an accepted file.
impl From<Result<AcceptedFile, Refusal>> for FileReply {
    ghost from_gives = { λ answer reply. reply ≡ file_of answer };

    fn from(answer: Result<AcceptedFile, Refusal>) -> FileReply {
        match answer {
            Ok(file) => FileReply {
                refusal: 0,
                facts: u32::from(file.facts),
                rules: u32::from(file.rules),
                exceptions: u32::from(file.exceptions),
                constraints: u32::from(file.constraints),
                step_bytes: STEP_WIDTH as u32,
            },
            Err(r) => FileReply {
                refusal: u32::from(r.number()),
                facts: 0,
                rules: 0,
                exceptions: 0,
                constraints: 0,
                step_bytes: 0,
            },
        }
    }
}

// A run, or a search.
impl From<Result<Ran, Refusal>> for RunCounts {
    ghost from_gives = { λ answer reply. reply ≡ counts_of answer };

    fn from(answer: Result<Ran, Refusal>) -> RunCounts {
        match answer {
            Ok(ran) => RunCounts {
                refusal: 0,
                stages: u32::from(ran.stages),
                steps: u32::from(ran.steps),
            },
            Err(r) => RunCounts {
                refusal: u32::from(r.number()),
                stages: 0,
                steps: 0,
            },
        }
    }
}

// What the judge or the proof check says.
impl From<Result<bool, Refusal>> for Verdict {
    ghost from_gives = { λ answer reply. reply ≡ verdict_of answer };

    fn from(answer: Result<bool, Refusal>) -> Verdict {
        match answer {
            Ok(yes) => Verdict {
                refusal: 0,
                verdict: yes as u32,
            },
            Err(r) => Verdict {
                refusal: u32::from(r.number()),
                verdict: 0,
            },
        }
    }
}

// The count of the steps that are kept, of the rules that are named, or of the bytes of a load.
impl From<Result<u16, Refusal>> for Count {
    ghost from_gives = { λ answer reply. reply ≡ count_of answer };

    fn from(answer: Result<u16, Refusal>) -> Count {
        match answer {
            Ok(count) => Count {
                refusal: 0,
                count: u32::from(count),
            },
            Err(r) => Count {
                refusal: u32::from(r.number()),
                count: 0,
            },
        }
    }
}

// Which of two orders.
impl From<Result<Choice, Refusal>> for ChoiceReply {
    ghost from_gives = { λ answer reply. reply ≡ reply_of_choice answer };

    fn from(answer: Result<Choice, Refusal>) -> ChoiceReply {
        match answer {
            Ok(Choice::First) => ChoiceReply {
                refusal: 0,
                which: 1,
            },
            Ok(Choice::Second) => ChoiceReply {
                refusal: 0,
                which: 2,
            },
            Err(r) => ChoiceReply {
                refusal: u32::from(r.number()),
                which: 0,
            },
        }
    }
}
