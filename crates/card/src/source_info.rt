// The whole card of a payload, by a walk that tests nothing: the payload was checked before.
ghost use Rattle.format.specs.Card.{card_of};
ghost use Rattle.format.specs.CardWalk.{card};
ghost use Rattle.format.proofs.Measured.{card-by-walk};
ghost use Rattle.card.specs.Shown.{shown_of};

use accepted::{CheckedSection, Payload, known_sections};
use display::{Page, Summary, summarize, write_page};
use job::Job;

pub struct Card;

impl Page for Card {
    ghost said = { shown_of };

    // Of packed contents it says that no bytes are there, and of an unknown kind nothing.
    fn summarize(section: CheckedSection) -> Option<Summary> {
        match summarize(section) {
            Summary::Zlib { count, .. } => Some(Summary::Zlib { count, bytes: 0 }),
            Summary::Unknown { .. } => None,
            summary => Some(summary),
        }
    }

    #[tactic(auto, using(crate::proofs::CardLaws::known_shown))]
    fn line_count(payload: Payload) -> u16 {
        known_sections(payload)
    }
}

// As of the listing but for the law that finds it. An impl of `Job` for every page would tie crates display and job together.
impl Job for Card {
    ghost made = { card_of };

    ghost walk = { card };

    ghost by_walk = { card-by-walk };

    #[tactic(auto, using(crate::proofs::CardLaws::as_card))]
    fn write(payload: Payload, output: &mut [u8]) -> u32 {
        write_page::<Card>(payload, output)
    }
}
