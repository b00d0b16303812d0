// A run of the account's calls, none of which can be refused.
ghost use Rattle.std.specs.Prelude.{◌≡◌, true, Some, MatchResult, nat_lt, slice_index_or};
ghost use Rattle.balance.specs.Runs as runs;
ghost use Rattle.balance.specs.Balances.{Balances};
ghost use Rattle.worked_sums.specs.Run.{one_plant, run_totals, run_plant, draft_calls, run_calls, LedBy};
ghost use Rattle.figures.specs.Blank.{no_plant_line};

use crate::calendar_of_run::AboveZeroUntil;
use account::year::Opened;
use balance::interim_statement;
use fault::Fault;
use flat::FlatOption;
use options::amounts::Amounts;
use site::draft::Draft;
use site::plant::PlantEntry;
use statement::Statement;

// The year 2026 with one supported plant of 1 W.
fn drafted() -> Result<Draft, Fault>
    ensures { MatchResult result (λ d. (d.year ≡ Some 2026) × (d.register.plants.items ≡ one_plant) × LedBy draft_calls (runs.drafted d)) (λ _. ⊥) }
{
    let mut draft = Draft::new();
    draft.set_year(2026)?;
    draft.add_plant(PlantEntry {
        power: 1,
        kind: 0,
        marketing: 0,
        regime: 0,
    })?;
    draft.check_fitness::<FlatOption>()?;
    Ok(draft)
}

// Two quarters, the first with a value above zero, the second without.
pub fn settled_run() -> Result<Statement, Fault>
    ensures { MatchResult result (λ s. (s.totals ≡ run_totals) × (slice_index_or s.plants 0 no_plant_line ≡ run_plant) × Balances (λ _ quarter. nat_lt quarter 1) run_calls s) (λ _. ⊥) }
{
    let draft = drafted()?;
    let mut year: Opened<FlatOption> = Opened::open(draft);
    let calendar = AboveZeroUntil { quarter: 1 };
    year.begin_contract(7)?;
    year.enter_quarter(
        &calendar,
        0,
        Amounts {
            draw: 100,
            feed_in: 600,
            store_in: 0,
            store_out: 0,
        },
    )?;
    year.enter_quarter(
        &calendar,
        1,
        Amounts {
            draw: 1_350,
            feed_in: 800,
            store_in: 0,
            store_out: 0,
        },
    )?;
    let mut statement = Statement::blank();
    interim_statement::<FlatOption, AboveZeroUntil>(&year, &mut statement)?;
    Ok(statement)
}
