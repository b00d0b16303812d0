// The layers below the account, asked directly: an option and a calendar.
#[cfg(test)]
mod tests {
    use crate::expected::refused;
    use calendar::published_table::PublishedTable;
    use calendar::value_calendar::ValueCalendar;
    use fault::Fault;
    use flat::FlatOption;
    use options::amounts::Amounts;
    use options::settlement_option::SettlementOption;
    use std::test::Fail;

    const MARKS: [bool; 8] = [true, false, false, false, false, false, false, true];

    const LARGEST: Amounts = Amounts {
        draw: 50_000,
        feed_in: 50_000,
        store_in: 50_000,
        store_out: 50_000,
    };

    #[test]
    fn an_option_that_is_full(rt: HostRuntime) -> Result<(), Fail> {
        let mut option = FlatOption::start(1);
        for _ in 0..35_136 {
            option.take(LARGEST, MARKS)?;
        }
        refused(option.take(LARGEST, MARKS), 4, 30, 35_136)?;
        refused(
            option.take(
                Amounts {
                    draw: 50_001,
                    ..LARGEST
                },
                MARKS,
            ),
            4,
            27,
            35_136,
        )?;
        assert_eq!(rt; option.quarters(), 35_136);
        assert_eq!(rt; option.draw(), 1_756_800_000);
        assert_eq!(rt; option.marked(7), 1_756_800_000);
        assert_eq!(rt; option.marked(6), 0);
        assert_eq!(rt; option.pair(8), (0, 0), "past the last place");
        Ok(())
    }

    // What a calendar answers where it refuses.
    fn asked(table: &PublishedTable, regime: u8, quarter: u32) -> Result<(), Fault> {
        table.above_zero(regime, quarter)?;
        Ok(())
    }

    #[test]
    fn a_calendar(rt: HostRuntime) -> Result<(), Fail> {
        let mut bytes = vec![in rt.alloc(); 0u8; 35_136]?;
        assert!(rt; bytes.len() == 35_136);
        bytes[4_392 * 2 + 1] = 4;
        let table = PublishedTable::new(&bytes);
        assert_eq!(rt; table.above_zero(2, 10)?, true);
        assert_eq!(rt; table.above_zero(2, 13)?, false);
        assert_eq!(rt; table.above_zero(1, 10)?, false);
        assert_eq!(rt; table.above_zero(7, 35_135)?, false);
        refused(asked(&table, 7, 35_136), 5, 28, 35_136)?;
        refused(asked(&table, 8, 35_136), 5, 28, 35_136)?;
        refused(asked(&table, 8, 35_135), 5, 31, 35_135)?;
        refused(
            asked(&PublishedTable::new(&bytes[1..35_136]), 0, 0),
            5,
            28,
            0,
        )
    }
}
