// Making a path over label codes, step by step.
ghost use Rattle.std.specs.Prelude.{◌≡◌, false, [], ◌∷◌, ◌++◌, length, if◌then◌else◌, is_ok, Some, None, Ok, Err, nat_lt};
ghost use Rattle.std.specs.Option.{option_map};
ghost use Rattle.path.specs.declared.coded.fault.StepFault.TheVariants.{Code, Many};
ghost use Rattle.path.specs.Codes.{coded, is_coded};
ghost use Rattle.path.specs.CodedPaths.{code_steps};

use crate::coded::CodedPath;
use crate::coded::fault::StepFault;
use crate::path::Path;
use crate::step::{Step, Test};

// Whether the test is one that a node can be asked for: 0 is no label's code.
fn is_coded(test: Test<u16>) -> bool
    ensures { result ≡ is_coded test }
{
    match test {
        Test::Star => true,
        Test::Name(code) => code > 0,
    }
}

impl CodedPath {
    // The path of one step; none for the code 0.
    pub fn one(test: Test<u16>) -> Option<CodedPath>
        ensures { option_map code_steps result ≡ (if is_coded test then Some (record { deep = false; test = test } ∷ []) else None) }
    {
        if !is_coded(test) {
            return None;
        }
        Some(CodedPath {
            path: Path::one(test),
        })
    }

    // One step more, where its code is not 0 and there are not eight yet.
    pub fn push(&mut self, step: Step<u16>) -> Result<(), StepFault>
        ensures answer { result ≡ (if is_coded step.test then (if nat_lt (length (code_steps self.old)) 8 then Ok tt else Err Many) else Err Code) }
        ensures after { code_steps self.new ≡ (if is_ok result then code_steps self.old ++ step ∷ [] else code_steps self.old) }
    {
        if !is_coded(step.test) {
            return Err(StepFault::Code);
        }
        Ok(self.path.push(step)?)
    }
}
