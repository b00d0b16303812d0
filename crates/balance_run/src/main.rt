// A run of an account's calls with refused ones among them: each call's answer, and each statement beside what the calls before it brought.
#![tactic(auto)]

use account::year::Opened;
use balance::{final_statement, interim_statement};
use brought::Brought;
use calendar::published_table::PublishedTable;
use delimitation::DelimitationOption;
use fault::Fault;
use flat::FlatOption;
use options::amounts::Amounts;
use options::settlement_option::SettlementOption;
use site::draft::Draft;
use site::plant::PlantEntry;
use statement::Statement;
use std::{fs, io};

mod brought;

fn answer(rt: &HostRuntime, call: &str, offered: u32, res: Result<(), Fault>) -> io::Result<()> {
    match res {
        Ok(()) => println!(rt; "{call} {offered}: accepted"),
        Err(fault) => println!(rt; "{call} {offered}: {fault}"),
    }
}

// A statement that was asked for, beside what the accepted calls brought.
#[derive(Drop)]
struct Beside<'a> {
    rt: &'a HostRuntime,
    statement: Statement,
    brought: &'a Brought,
}

impl Beside<'_> {
    fn print(&self, res: Result<(), Fault>) -> io::Result<()> {
        match res {
            Ok(()) => {
                let statement = &self.statement;
                print!(self.rt; "{statement}")?;
                self.print_feed_in()?;
                self.print_draw()
            }
            Err(fault) => println!(self.rt; "statement: {fault}"),
        }
    }

    // Each line, here and below: what the accepted calls brought, and what the statement makes of it.
    fn print_feed_in(&self) -> io::Result<()> {
        let lines = self.statement.plant_lines().iter();
        let mut portions = 0u32;
        for (place, (line, plant)) in lines.zip(&self.brought.plants).enumerate() {
            portions = portions.saturating_add(line.portion);
            let fed = plant.feed_in;
            let marked = line.marked;
            println!(self.rt; "  fed in while plant {place} was marked {fed}: marked {marked}")?;
        }
        let fed = self.brought.feed_in;
        let feed_in = self.statement.totals.feed_in;
        let nettable = feed_in.nettable;
        let unassigned = feed_in.unassigned;
        println!(self.rt;
            "  fed in {fed}: portions {portions} nettable {nettable} unassigned {unassigned}"
        )
    }

    fn print_draw(&self) -> io::Result<()> {
        let lines = self.statement.contract_lines().iter();
        let mut all_netted = 0u32;
        for (line, drawn) in lines.zip(&self.brought.contracts) {
            let number = line.number;
            let netted = line.draw.netted;
            let levied = line.draw.levied;
            all_netted = all_netted.saturating_add(netted);
            println!(self.rt;
                "  drawn under contract {number} {drawn}: netted {netted} levied {levied}"
            )?;
        }
        let drawn = self.brought.draw;
        println!(self.rt; "  drawn {drawn}: netted {all_netted}")
    }
}

// A call of an opened year. An enum and no closures, so that a list of calls can be read as a table.
#[derive(Clone, Copy)]
enum Call {
    Contract(u32),
    Quarter(u32, Amounts),
    Statement,
}

// Where a run prints, and the table that marks its quarters. Each program has its own: a crate for two fields would be no plainer.
#[derive(Clone, Copy)]
struct Trial<'a> {
    rt: &'a HostRuntime,
    table: PublishedTable<'a>,
}

// An account of one option, and what its accepted calls brought.
#[derive(Drop)]
struct Run<'a, O> {
    trial: Trial<'a>,
    year: Opened<O>,
    brought: Brought,
}

impl<'a, O: SettlementOption + Drop> Run<'a, O> {
    // A year opened from a draft with these plants, as far as they are accepted.
    fn open(trial: Trial<'a>, plants: &[PlantEntry]) -> io::Result<Run<'a, O>> {
        let rt = trial.rt;
        let mut brought = Brought::nothing();
        let draft = drafted(rt, plants, &mut brought)?;
        let fitness = draft.check_fitness::<O>();
        answer(rt, "fitness under option", O::number() as u32, fitness)?;
        println!(rt; "open")?;
        Ok(Run {
            trial,
            year: Opened::open(draft),
            brought,
        })
    }

    fn begin(&mut self, number: u32) -> io::Result<()> {
        let result = self.year.begin_contract(number);
        if result.is_ok() {
            self.brought.begin_contract();
        }
        answer(self.trial.rt, "contract", number, result)
    }

    fn take(&mut self, quarter: u32, amounts: Amounts) -> Result<(), Fault> {
        self.year
            .enter_quarter(&self.trial.table, quarter, amounts)?;
        self.brought
            .enter_quarter(&self.trial.table, quarter, amounts);
        Ok(())
    }

    fn enter(&mut self, quarter: u32, amounts: Amounts) -> io::Result<()> {
        let result = self.take(quarter, amounts);
        answer(self.trial.rt, "quarter", quarter, result)
    }

    // What is left of the year: readings that differ from quarter to quarter.
    fn enter_rest(&mut self) -> io::Result<()> {
        let mut accepted = 0u32;
        for quarter in 4..35_040u32 {
            let reading = Amounts {
                draw: quarter % 97,
                feed_in: quarter * 7 % 1_009,
                store_in: quarter % 31,
                store_out: quarter % 29,
            };
            if self.take(quarter, reading).is_ok() {
                accepted = accepted.saturating_add(1);
            }
        }
        println!(self.trial.rt; "quarters 4 to 35039: {accepted} accepted")
    }

    fn statement(&self) -> io::Result<()> {
        let mut statement = Statement::blank();
        let result = interim_statement::<O, PublishedTable<'_>>(&self.year, &mut statement);
        let beside = Beside {
            rt: self.trial.rt,
            statement,
            brought: &self.brought,
        };
        beside.print(result)
    }

    fn call_all(&mut self, calls: &[Call]) -> io::Result<()> {
        for call in calls {
            match *call {
                Call::Contract(number) => self.begin(number)?,
                Call::Quarter(quarter, amounts) => self.enter(quarter, amounts)?,
                Call::Statement => self.statement()?,
            }
        }
        Ok(())
    }

    fn close(self) -> io::Result<()> {
        let Run {
            trial,
            year,
            brought,
        } = self;
        println!(trial.rt; "close")?;
        let mut statement = Statement::blank();
        let result = final_statement::<O, PublishedTable<'_>>(&year.close(), &mut statement);
        let beside = Beside {
            rt: trial.rt,
            statement,
            brought: &brought,
        };
        beside.print(result)
    }
}

fn plant(power: u32, kind: u8, marketing: u8, regime: u8) -> PlantEntry {
    PlantEntry {
        power,
        kind,
        marketing,
        regime,
    }
}

fn quarter(quarter: u32, draw: u32, feed_in: u32, store_in: u32, store_out: u32) -> Call {
    Call::Quarter(
        quarter,
        Amounts {
            draw,
            feed_in,
            store_in,
            store_out,
        },
    )
}

// A draft with these plants, as far as they are accepted.
fn drafted(rt: &HostRuntime, plants: &[PlantEntry], brought: &mut Brought) -> io::Result<Draft> {
    let mut draft = Draft::new();
    for year in [2024, 2028, 2100, 2026] {
        answer(rt, "year", year as u32, draft.set_year(year))?;
    }
    for entry in plants {
        let result = draft.add_plant(*entry);
        if result.is_ok() {
            brought.add_plant(entry.regime);
        }
        answer(rt, "plant", entry.power, result)?;
    }
    Ok(draft)
}

fn first_calls() -> [Call; 18] {
    [
        quarter(0, 100, 700, 60, 0),
        Call::Contract(0),
        Call::Contract(7),
        Call::Contract(7),
        Call::Statement,
        quarter(1, 100, 700, 60, 0),
        quarter(0, 100, 700, 60, 0),
        quarter(0, 100, 700, 60, 0),
        quarter(1, 0, 50_001, 0, 0),
        quarter(1, 0, 900, 40, 0),
        Call::Statement,
        Call::Contract(9),
        quarter(2, 300, 0, 0, 0),
        quarter(3, 0, 1_200, 0, 70),
        Call::Contract(11),
        Call::Contract(12),
        Call::Contract(13),
        Call::Statement,
    ]
}

// A whole year, with refused calls all the way.
fn whole_year<O: SettlementOption + Drop>(trial: Trial<'_>) -> io::Result<()> {
    let plants = [
        plant(0, 0, 0, 0),
        plant(6_000, 0, 0, 1),
        plant(4_000, 0, 1, 0),
        plant(800, 1, 0, 3),
        plant(1_300, 1, 0, 3),
        plant(500, 0, 2, 0),
        plant(195_000, 0, 0, 0),
        plant(12_000, 0, 0, 7),
    ];
    let mut run: Run<O> = Run::open(trial, &plants)?;
    let mut next_year = Draft::new();
    let late = next_year.add_plant(plant(5_000, 0, 0, 2));
    answer(trial.rt, "late plant, in the next draft", 5_000, late)?;
    run.call_all(&first_calls())?;
    run.enter_rest()?;
    run.call_all(&[quarter(35_040, 1, 1, 0, 0), Call::Statement])?;
    run.close()
}

// A year from an unfit draft, and one that is closed too early.
fn no_statement(trial: Trial<'_>) -> io::Result<()> {
    let mut unfit: Run<FlatOption> = Run::open(trial, &[plant(1_000, 0, 1, 0)])?;
    unfit.call_all(&[Call::Contract(7), quarter(0, 1, 1, 0, 0), Call::Statement])?;
    unfit.close()?;
    let mut early: Run<FlatOption> = Run::open(trial, &[plant(1_000, 0, 0, 0)])?;
    early.call_all(&[Call::Contract(7), quarter(0, 20_000, 30_000, 0, 0)])?;
    early.close()
}

fn main(rt: HostRuntime) -> anyhow::Result<()> {
    let bytes = fs::read(&rt, "calendar.bin")?;
    let trial = Trial {
        rt: &rt,
        table: PublishedTable::new(&bytes),
    };
    whole_year::<FlatOption>(trial)?;
    whole_year::<DelimitationOption>(trial)?;
    no_statement(trial)?;
    Ok(())
}
