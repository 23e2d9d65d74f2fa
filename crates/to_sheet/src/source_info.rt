// The whole sheet of a payload, by a walk that tests nothing: the payload was checked before.
ghost use Rattle.sheet.specs.SheetWalk.{sheet_lines};
ghost use Rattle.sheet.specs.ToSheet.{to_sheet};
ghost use Rattle.sheet.proofs.SheetFound.{sheet-by-walk};

use crate::section::write_section;
use accepted::{Payload, Sections};
use job::Job;

pub struct Sheet;

impl Job for Sheet {
    ghost made = { to_sheet };

    ghost walk = { sheet_lines };

    ghost by_walk = { sheet-by-walk };

    fn write(payload: Payload, output: &mut [u8]) -> u32 {
        let mut to = 0;
        for section in Sections::new(payload) {
            to = write_section(section, output, to);
        }
        to as u32
    }
}
