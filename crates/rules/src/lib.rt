// The types of document 01: what a record is, what a proposal says, what is answered. What they mean is stated in specs/.
#![tactic(auto)]

// Kind and data are one thing: a command has no voters, a commit has no command.
#[derive(Clone, Copy, PartialEq, Eq)]
pub enum Kind {
    Election { voters: u16 },
    Command { number: u32 },
    Change,
    Commit { voters: u16 },
}

// One record of the table. For a change, `members` is the new set.
#[derive(Clone, Copy, PartialEq, Eq)]
pub struct Record {
    pub parent: u8,
    pub caller: u8,
    pub time: u32,
    pub version: u8,
    pub members: u16,
    pub kind: Kind,
}

// The four proposals. Any value of any field gets an answer.
#[derive(Clone, Copy)]
pub enum Proposal {
    Pull {
        caller: u32,
        voters: u16,
        time: u32,
    },
    Invoke {
        caller: u32,
        number: u32,
    },
    Reconfigure {
        caller: u32,
        members: u16,
    },
    Push {
        caller: u32,
        voters: u16,
        target: u32,
    },
}

// The refusals, with document 01's numbers 1 to 17.
#[derive(Clone, Copy)]
pub enum Refusal {
    EmptySet = 1,
    NoSuchCaller,
    CallerAbsent,
    Stranger,
    ClockPast,
    NotLeading,
    BadTarget,
    Superseded,
    NotNext,
    OpenChange,
    NoCommitYet,
    TableFull,
    VersionsOut,
    NoSuchNumber,
    BufferShort,
    NoTable,
    OffBranch,
}

// The answer to opening and to a proposal.
#[derive(Clone, Copy)]
pub enum Answer {
    Accepted(u8),
    Short,
    Refused(Refusal),
}
