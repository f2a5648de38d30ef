// How many cases gave what they should.
use anyhow::{Result, ensure};

/// How many cases gave what they should, and how many didn't.
#[derive(Clone, Copy)]
pub struct Counts {
    agree: u32,
    differ: u32,
}

impl Counts {
    /// No case yet.
    pub const fn none() -> Counts {
        Counts {
            agree: 0,
            differ: 0,
        }
    }

    /// Counts a case.
    pub fn add(&mut self, agrees: bool) {
        if agrees {
            self.agree = self.agree.saturating_add(1);
        } else {
            self.differ = self.differ.saturating_add(1);
        }
    }

    /// Prints how many cases agree. It is an error that some differ.
    pub fn tell(self, rt: &impl Print) -> Result<()> {
        let Counts { agree, differ } = self;
        println!(rt; "{agree} cases agree")?;
        ensure!(differ == 0, "{differ} cases differ");
        Ok(())
    }
}
