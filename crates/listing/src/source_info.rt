// The whole listing of a payload, by a walk that tests nothing: the payload was checked before.
ghost use Rattle.std.specs.Prelude.{Some};
ghost use Rattle.format.specs.Lines.{listing};
ghost use Rattle.format.specs.Listing.{listed};
ghost use Rattle.format.proofs.Measured.{listing-by-walk};
ghost use Rattle.display.specs.Summary.{summary_of};

use accepted::{CheckedSection, Payload};
use display::{Page, Summary, summarize, write_page};
use job::Job;

pub struct Listing;

impl Page for Listing {
    ghost said = { λ s. Some (summary_of s) };

    fn summarize(section: CheckedSection) -> Option<Summary> {
        Some(summarize(section))
    }

    #[tactic(auto, using(crate::proofs::ListingLaws::all_counted))]
    fn line_count(payload: Payload) -> u16 {
        payload.section_count()
    }
}

impl Job for Listing {
    ghost made = { listed };

    ghost walk = { listing };

    ghost by_walk = { listing-by-walk };

    #[tactic(auto, using(crate::proofs::ListingLaws::as_listing))]
    fn write(payload: Payload, output: &mut [u8]) -> u32 {
        write_page::<Listing>(payload, output)
    }
}
