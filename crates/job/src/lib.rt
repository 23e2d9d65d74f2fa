// A job that makes an output of an accepted payload: the listing, the public copy, the card and the sheet are such jobs.
//
// One function runs each of them. The first pass checks the payload (crate parse). The output is then written by one
// function of the job to an output of no bytes, which tells how many bytes it takes, and where there is room once more.
//
// Reading, writing and the way in from a sheet measure by one pass and store by another, and test the room in two lines of their own
// (crates read, write, from_sheet). As such jobs each would be a struct of what it is lent, with an impl of both passes and of
// the law that ties them: longer than the lines that it saves; and reading has rows for an output, and a refusal of its own.
// The proofs of writing and of the way in cite the laws of format/proofs/Output.antt. The one of `run` cites those of
// format/proofs/Measured.antt, which are proved from the same; the one of reading cites format/proofs/Answers.antt.
// A helper that tests the room would save two lines a job, and want a contract; and each proof, of which the test is one
// `omega` now, would undo the helper's `?` as it undoes that of the first pass.
//
// Proved: the answer and the output afterwards are those that the job's definition gives, for every byte string and every
// output. Nothing is assumed.
#![tactic(auto)]

ghost use Rattle.std.specs.Prelude.{ℕ, List, ◌≡◌, length};
ghost use Rattle.std.proofs.lemmas.List.Edits.{sets};
ghost use Rattle.layout.specs.Checked.{Checked};
ghost use Rattle.format.specs.Output.{answer};
ghost use Rattle.format.specs.Output.{output_after as Output·output_after};
ghost use Rattle.format.proofs.Measured.{ByWalk};

use accepted::Payload;
use layout::{Answer, Refusal};

pub trait Job {
    // What the job makes of a payload, or its refusal.
    ghost made: { List ℕ → Checked (List ℕ) };

    // What a walk over an accepted payload makes.
    ghost walk: { List ℕ → List ℕ };

    // Writes what the job makes of an accepted payload, from the output's start on, as far as the output goes. Answers
    // its length.
    fn write(payload: Payload, output: &mut [u8]) -> u32
        ensures value { result ≡ length (walk payload.entry.bytes.now) }
        ensures output_after { output.new ≡ sets output.old 0 (walk payload.entry.bytes.now) };

    // It finds what the job makes.
    ghost by_walk: { ByWalk made walk };
}

// Runs a job over a payload to a lent output, whole, or refuses it and leaves the output as it was.
pub fn run<J: Job>(payload: &[u8], output: &mut [u8]) -> Answer
    ensures value { result ≡ answer (J.made payload.now) (length output.old) }
    ensures output_after { output.new ≡ Output·output_after (J.made payload.now) output.old }
{
    parse::parse_srci(payload)?;
    let checked = Payload { bytes: payload };
    let size = J::write(checked, &mut output[..0]);
    let room = output.len();
    if room < size as usize {
        return Err(Refusal::NoRoom(size));
    }
    J::write(checked, output);
    Ok(size)
}
