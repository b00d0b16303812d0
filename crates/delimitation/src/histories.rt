// A law over whole histories of the delimitation option.
ghost use Rattle.delimitation.specs.Histories.{HistoriesDelimit};

// The sums by which it tells apart what the store gave are those of the quarters it took.
pub fn histories_delimit()
    ensures { HistoriesDelimit }
{}
