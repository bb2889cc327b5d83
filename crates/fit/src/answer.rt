// What is answered to a text.
ghost use Rattle.fit.specs.Answers.{Answers};

use crate::acceptance::Accepted;
use crate::offence::Refused;
use compile::compile::compile;
use facts::kind::Kind;
use facts::most::Counts;
use facts::pass::LEAST_SCRATCH;
use facts::touched::Touched;

// Compiles a text.
#[tactic(auto, using(crate::proofs::Offences::told_in_text))]
pub(crate) fn answer(text: &[u8]) -> Result<Accepted<'_>, Refused<'_>>
    ensures { Answers text.now result }
{
    let mut touched = [Touched.start(); LEAST_SCRATCH];
    let mut most = [Counts {
        emits: 0,
        direct: 0,
    }; LEAST_SCRATCH];
    match compile(text, &mut touched, &mut most) {
        Ok(compiled) => Ok(Accepted(compiled)),
        Err(refusal) => Err(Refused::new(text, refusal)),
    }
}

#[cfg(test)]
mod tests;
