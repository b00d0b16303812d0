// A refusal as a test expects it.
use fault::Fault;
use std::test::Fail;

// Whether the answer is a refusal by this layer and this question, at this place: the rules' numbers and no `Cause`, which would compare the code with itself.
pub fn refused(answer: Result<(), Fault>, layer: u8, number: u8, place: u64) -> Result<(), Fail> {
    let Err(fault) = answer else {
        return Err(Fail::new("accepted"));
    };
    if fault.cause.layer().code() != layer {
        return Err(Fail::new("refused by another layer"));
    }
    if fault.cause.number() != number {
        return Err(Fail::new("refused by another question"));
    }
    if fault.place != place {
        return Err(Fail::new("refused at another place"));
    }
    Ok(())
}
