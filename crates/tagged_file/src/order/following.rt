// Which record may follow: the stage of the file together with the record's tag.
ghost use Rattle.std.specs.Prelude.{◌≡◌};
ghost use Rattle.tagged_file.specs.Follows.{has_end, AtStart, following, Follows};

use super::{Order, REMARKS, Stage};
use crate::record::Tag;
use fault::Fault;
use fault::cause::Cause;

impl Order {
    pub fn new() -> Order
        ensures { AtStart result }
    {
        Order {
            stage: Stage::Start,
            remarks: 0,
        }
    }

    // Whether the end was read.
    pub fn is_over(&self) -> bool
        ensures { result ≡ has_end self.now.stage }
    {
        self.stage == Stage::Over
    }

    // The stage after a record of this tag, where it may stand here.
    fn follow(&self, tag: Tag) -> Option<Stage>
        ensures { result ≡ following self.now tag }
    {
        match (self.stage, tag) {
            (Stage::Start, Tag::Year) => Some(Stage::Plants),
            (Stage::Plants, Tag::Plant) => Some(Stage::Plants),
            (Stage::Plants | Stage::Contracts, Tag::Contract) => Some(Stage::Contracts),
            (Stage::Contracts, Tag::Quarter) => Some(Stage::Contracts),
            (Stage::Contracts, Tag::End) => Some(Stage::Over),
            (Stage::Start | Stage::Plants | Stage::Contracts, Tag::Remark)
                if self.remarks < REMARKS => Some(self.stage),
            _ => None,
        }
    }

    // Goes on past a record of this tag, or refuses and stays.
    pub fn allow(&mut self, tag: Tag, offset: u64) -> Result<(), Fault>
        ensures { Follows self.old tag offset result self.new }
    {
        let Some(stage) = self.follow(tag) else {
            return Err(Cause::OutOfOrder.at(offset));
        };
        if tag == Tag::Remark {
            self.remarks += 1;
        }
        self.stage = stage;
        Ok(())
    }
}
