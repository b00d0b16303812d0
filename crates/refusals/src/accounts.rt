// The account: contracts, quarters, statements.
#[cfg(test)]
mod tests {
    use crate::expected::refused;
    use account::year::Opened;
    use calendar::published_table::PublishedTable;
    use fault::Fault;
    use flat::FlatOption;
    use options::amounts::Amounts;
    use site::draft::Draft;
    use site::plant::PlantEntry;
    use statement::Statement;
    use std::test::Fail;

    const AMOUNTS: Amounts = Amounts {
        draw: 300,
        feed_in: 700,
        store_in: 0,
        store_out: 0,
    };

    // A year of one supported plant of one watt, so that feed-in above 500 Wh is nettable.
    fn opened(year: u16) -> Result<Opened<FlatOption>, Fault> {
        let mut draft = Draft::new();
        draft.set_year(year)?;
        draft.add_plant(PlantEntry {
            power: 1,
            kind: 0,
            marketing: 0,
            regime: 3,
        })?;
        Ok(Opened::open(draft))
    }

    fn stated(year: &Opened<FlatOption>) -> Result<Statement, Fault> {
        let mut statement = Statement::blank();
        year.statement(&mut statement)?;
        Ok(statement)
    }

    #[test]
    fn a_year_from_an_unfit_draft(rt: HostRuntime) -> Result<(), Fail> {
        let bytes = vec![in rt.alloc(); 255u8; 35_136]?;
        let table = PublishedTable::new(&bytes);
        let mut year: Opened<FlatOption> = Opened::open(Draft::new());
        let mut statement = Statement::blank();
        refused(year.begin_contract(7), 3, 21, 7)?;
        refused(year.begin_contract(0), 3, 21, 0)?;
        refused(year.enter_quarter(&table, 5, AMOUNTS), 3, 21, 5)?;
        refused(year.statement(&mut statement), 3, 21, 0)?;
        refused(year.close().statement(&mut statement), 3, 21, 0)?;
        assert_eq!(rt; statement, Statement::blank());
        Ok(())
    }

    #[test]
    fn contracts(rt: HostRuntime) -> Result<(), Fail> {
        let mut year = opened(2026)?;
        refused(year.begin_contract(0), 3, 22, 0)?;
        for number in 1..5 {
            year.begin_contract(number)?;
        }
        let before = stated(&year)?;
        assert_eq!(rt; before.contract_count, 4);
        refused(year.begin_contract(0), 3, 22, 0)?;
        refused(year.begin_contract(4), 3, 23, 4)?;
        refused(year.begin_contract(5), 3, 24, 5)?;
        assert_eq!(rt; stated(&year)?, before);
        Ok(())
    }

    #[test]
    fn quarters(rt: HostRuntime) -> Result<(), Fail> {
        let bytes = vec![in rt.alloc(); 255u8; 35_136]?;
        let table = PublishedTable::new(&bytes);
        let mut year = opened(2026)?;
        refused(year.enter_quarter(&table, 1, AMOUNTS), 3, 25, 1)?;
        year.begin_contract(7)?;
        year.enter_quarter(&table, 0, AMOUNTS)?;
        let before = stated(&year)?;
        assert_eq!(rt; before.totals.feed_in.nettable, 200);
        refused(year.enter_quarter(&table, 0, AMOUNTS), 3, 26, 0)?;
        refused(
            year.enter_quarter(
                &table,
                2,
                Amounts {
                    draw: 50_001,
                    ..AMOUNTS
                },
            ),
            3,
            26,
            2,
        )?;
        refused(
            year.enter_quarter(
                &table,
                1,
                Amounts {
                    draw: 50_001,
                    ..AMOUNTS
                },
            ),
            3,
            27,
            1,
        )?;
        refused(
            year.enter_quarter(
                &table,
                1,
                Amounts {
                    feed_in: 50_001,
                    ..AMOUNTS
                },
            ),
            3,
            27,
            1,
        )?;
        refused(
            year.enter_quarter(
                &table,
                1,
                Amounts {
                    store_in: 50_001,
                    ..AMOUNTS
                },
            ),
            3,
            27,
            1,
        )?;
        refused(
            year.enter_quarter(
                &table,
                1,
                Amounts {
                    store_out: 50_001,
                    ..AMOUNTS
                },
            ),
            3,
            27,
            1,
        )?;
        refused(
            year.enter_quarter(&PublishedTable::new(&bytes[0..35_135]), 1, AMOUNTS),
            5,
            28,
            1,
        )?;
        assert_eq!(rt; stated(&year)?, before);
        year.enter_quarter(
            &table,
            1,
            Amounts {
                draw: 50_000,
                feed_in: 50_000,
                store_in: 50_000,
                store_out: 50_000,
            },
        )?;
        assert_eq!(rt; stated(&year)?.totals.draw.draw, 50_300);
        Ok(())
    }

    // Enters every quarter of a year, and then one more.
    #[test]
    fn whole_years(rt: HostRuntime) -> Result<(), Fail> {
        let bytes = vec![in rt.alloc(); 255u8; 35_136]?;
        let table = PublishedTable::new(&bytes);
        let mut common = opened(2026)?;
        let mut leap = opened(2028)?;
        common.begin_contract(7)?;
        leap.begin_contract(7)?;
        for quarter in 0..35_040 {
            common.enter_quarter(&table, quarter, AMOUNTS)?;
            leap.enter_quarter(&table, quarter, AMOUNTS)?;
        }
        refused(common.enter_quarter(&table, 35_040, AMOUNTS), 3, 26, 35_040)?;
        leap.enter_quarter(&table, 35_040, AMOUNTS)?;
        let mut statement = Statement::blank();
        refused(leap.close().statement(&mut statement), 3, 29, 35_041)?;
        assert_eq!(rt; statement, Statement::blank());
        common.close().statement(&mut statement)?;
        assert_eq!(rt; statement.totals.draw.draw, 10_512_000);
        assert_eq!(rt; statement.totals.feed_in.base, 500);
        assert_eq!(rt; statement.totals.feed_in.nettable, 24_527_500);
        Ok(())
    }
}
