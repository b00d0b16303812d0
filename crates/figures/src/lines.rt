// The lines of a statement, figure by figure, in Wh.
#[derive(Clone, Copy, PartialEq, Debug, Default)]
pub enum Standing {
    #[default]
    Interim,
    Final,
}

// Grid draw: the part that is netted, and the part that stays levied.
#[derive(Clone, Copy, PartialEq, Debug, Default)]
pub struct DrawFigures {
    pub draw: u32,
    pub netted: u32,
    pub levied: u32,
}

// Feed-in: the base that is divided over the plants, the nettable and the unassigned part. What netting left of the nettable is unused.
#[derive(Clone, Copy, PartialEq, Debug, Default)]
pub struct FeedInFigures {
    pub feed_in: u32,
    pub base: u32,
    pub nettable: u32,
    pub unassigned: u32,
    pub unused: u32,
}

#[derive(Clone, Copy, PartialEq, Debug, Default)]
pub struct Totals {
    pub draw: DrawFigures,
    pub feed_in: FeedInFigures,
}

// A plant's portion of the base: the part that earns the market premium is valued.
#[derive(Clone, Copy, PartialEq, Debug, Default)]
pub struct PlantLine {
    pub place: usize,
    pub portion: u32,
    pub marked: u32,
    pub valued: u32,
    pub unvalued: u32,
}

#[derive(Clone, Copy, PartialEq, Debug, Default)]
pub struct ContractLine {
    pub number: u32,
    pub draw: DrawFigures,
}
