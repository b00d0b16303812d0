// Files that come in pieces of many sizes, and records that lie over the edge of a piece at each of their bytes: the outcome is the same.
#![tactic(auto)]

mod files;

use crate::files::{remarked_year, shifted};
use calendar::published_table::PublishedTable;
use settlement::pieces::settle_bytes;
use std::fs;

// Sizes about one byte, about a quarter record, and about twice what is read at once.
const SIZES: [usize; 9] = [1, 2, 3, 20, 21, 22, 65_535, 65_536, 65_537];

// What is read at once.
const PIECE: usize = 32_768;

// The bytes of the longest record: 1,027.
const LONGEST: u16 = 1_027;

// Settles files by one table, and prints what they come to. Each program has its own: a crate for two fields would be no plainer.
#[derive(Clone, Copy)]
struct Trial<'r, 't> {
    rt: &'r HostRuntime,
    table: PublishedTable<'t>,
}

impl Trial<'_, '_> {
    // What a file comes to, in pieces of this size.
    fn outcome(&self, file: &[u8], size: usize) -> anyhow::Result<String> {
        let text = match settle_bytes(self.table, file, size) {
            Ok(statement) => format!(in self.rt.alloc(); "{statement}")?,
            Err(fault) => format!(in self.rt.alloc(); "{fault}\n")?,
        };
        Ok(text)
    }

    // One year with remarks, in pieces of each size.
    fn sizes(&self) -> anyhow::Result<()> {
        let file = remarked_year(self.rt.alloc())?;
        for size in SIZES {
            let text = self.outcome(&file, size)?;
            print!(self.rt;
                "a year of {} bytes in pieces of {size}:\n{text}",
                file.len()
            )?;
        }
        Ok(())
    }

    // A remark of so many bytes, or a quarter, lies over the edge of the first piece at each of its bytes, and then over none.
    fn over_the_edge(&self, long: u16, shifts: u16) -> anyhow::Result<()> {
        let first = self.outcome(&shifted(self.rt.alloc(), 0, long)?, 1)?;
        for shift in 0..shifts {
            let text = self.outcome(&shifted(self.rt.alloc(), shift, long)?, PIECE)?;
            if text != first {
                print!(self.rt; "shifted by {shift}, with a remark of {long}:\n{text}")?;
            }
        }
        print!(self.rt; "all of {shifts} shifted files, with a remark of {long}:\n{first}")?;
        Ok(())
    }

    // The place of a refusal is shifted with its record.
    fn refused(&self) -> anyhow::Result<()> {
        for shift in 0..43 {
            let mut file = shifted(self.rt.alloc(), shift, 0)?;
            file.push(0)?;
            let text = self.outcome(&file, PIECE)?;
            print!(self.rt; "a byte after the end, shifted by {shift}: {text}")?;
        }
        Ok(())
    }
}

fn main(rt: HostRuntime) -> anyhow::Result<()> {
    let table = fs::read(&rt, "calendar.bin")?;
    let trial = Trial {
        rt: &rt,
        table: PublishedTable::new(&table),
    };
    trial.sizes()?;
    trial.over_the_edge(LONGEST - 3, LONGEST + 4)?;
    trial.over_the_edge(0, 43)?;
    trial.refused()
}
