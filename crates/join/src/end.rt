// ProbeEnd and Done: the last probe to end is the emitter of the left rest; a probe that is done says so.
ghost use Rattle.std.specs.Prelude.{◌≡◌};
ghost use Rattle.nested_loop.specs.Machine.{lower};
ghost use Rattle.nested_loop.specs.declared.answer.Answer.TheVariants.{On, Done as IsDone};
ghost use Rattle.join.specs.Handled.{ended, finished};

use crate::record::Probe;
use nested_loop::{Answer, NLJState};

impl Probe {
    // Lowers the count of unfinished probes; who brings it to 0 is the emitter.
    pub(crate) fn handle_probe_end(&mut self, unfinished: &mut usize) -> Answer
        ensures answer { result ≡ On }
        ensures probe { self.new ≡ ended self.old unfinished.old }
        ensures unfinished { unfinished.new ≡ lower unfinished.old }
    {
        self.is_emitter = *unfinished == 1;
        *unfinished = unfinished.saturating_sub(1);
        self.index = 0;
        self.state = NLJState::EmitLeftUnmatched;
        Answer::On
    }

    // Answers done, and remembers that it did.
    pub(crate) fn handle_done(&mut self) -> Answer
        ensures answer { result ≡ IsDone }
        ensures probe { self.new ≡ finished self.old }
    {
        self.answered = true;
        Answer::Done
    }
}
