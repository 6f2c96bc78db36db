// What a step answers, and why it is refused.
ghost use Rattle.std.specs.Prelude.{◌≡◌};
ghost use Rattle.nested_loop.specs.Refusals.{number_of};

// The states of a probe.
#[derive(Clone, Copy)]
pub enum NLJState {
    FetchingRight,
    ProbeRight,
    EmitRightUnmatched,
    ProbeEnd,
    EmitLeftUnmatched,
    Done,
}

// A fault of a source, with the probe that met it and how many items that took before.
#[derive(Clone, Copy)]
pub struct Faulted {
    pub cause: u8,
    pub depth: u8,
    pub probe: usize,
    pub items: u64,
}

#[derive(Clone, Copy)]
pub enum Answer {
    On,
    Batch(usize),
    Wait,
    Fault(Faulted),
    Done,
}

#[derive(Clone, Copy, Debug, PartialEq, Eq)]
pub enum StepRefusal {
    NoSuchProbe = 10,
    LeftTooShort = 11,
    OtherColumns = 12,
    PageTooShort = 13,
}

impl StepRefusal {
    // The number by which the refusal goes.
    pub fn number(self) -> u8
        ensures { result ≡ number_of self }
    {
        self as u8
    }
}
