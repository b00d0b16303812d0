// The draft: setting the year, adding plants, fitness.
#[cfg(test)]
mod tests {
    use crate::expected::refused;
    use delimitation::DelimitationOption;
    use flat::FlatOption;
    use site::draft::Draft;
    use site::plant::PlantEntry;
    use std::test::Fail;

    const PLANT: PlantEntry = PlantEntry {
        power: 1_000,
        kind: 0,
        marketing: 0,
        regime: 0,
    };

    #[test]
    fn years_out_of_range(rt: HostRuntime) -> Result<(), Fail> {
        let mut draft = Draft::new();
        refused(draft.set_year(2024), 2, 11, 0)?;
        assert_eq!(rt; draft.year(), None);
        draft.set_year(2099)?;
        refused(draft.set_year(2100), 2, 11, 0)?;
        assert_eq!(rt; draft.year(), Some(2099));
        draft.set_year(2025)?;
        assert_eq!(rt; draft.year(), Some(2025), "the latest counts");
        Ok(())
    }

    #[test]
    fn plants_out_of_range(rt: HostRuntime) -> Result<(), Fail> {
        let mut draft = Draft::new();
        draft.add_plant(PLANT)?;
        refused(draft.add_plant(PlantEntry { power: 0, ..PLANT }), 2, 13, 1)?;
        refused(
            draft.add_plant(PlantEntry {
                power: 200_001,
                kind: 2,
                ..PLANT
            }),
            2,
            13,
            1,
        )?;
        refused(draft.add_plant(PlantEntry { kind: 2, ..PLANT }), 2, 14, 1)?;
        refused(
            draft.add_plant(PlantEntry {
                marketing: 2,
                ..PLANT
            }),
            2,
            14,
            1,
        )?;
        refused(draft.add_plant(PlantEntry { regime: 8, ..PLANT }), 2, 14, 1)?;
        refused(
            draft.add_plant(PlantEntry {
                power: 2_001,
                kind: 1,
                ..PLANT
            }),
            2,
            15,
            1,
        )?;
        refused(
            draft.add_plant(PlantEntry {
                power: 200_000,
                kind: 1,
                ..PLANT
            }),
            2,
            15,
            1,
        )?;
        refused(
            draft.add_plant(PlantEntry {
                power: 199_001,
                ..PLANT
            }),
            2,
            16,
            1,
        )?;
        assert_eq!(rt; draft.register().count(), 1);
        assert_eq!(rt; draft.register().power(), 1_000);
        draft.add_plant(PlantEntry {
            power: 2_000,
            kind: 1,
            ..PLANT
        })?;
        draft.add_plant(PlantEntry {
            power: 197_000,
            ..PLANT
        })?;
        assert_eq!(rt; draft.register().power(), 200_000);
        Ok(())
    }

    #[test]
    fn a_full_register(rt: HostRuntime) -> Result<(), Fail> {
        let mut draft = Draft::new();
        for _ in 0..8 {
            draft.add_plant(PLANT)?;
        }
        refused(draft.add_plant(PlantEntry { power: 0, ..PLANT }), 2, 12, 8)?;
        assert_eq!(rt; draft.register().count(), 8);
        Ok(())
    }

    #[test]
    fn unfit_drafts(rt: HostRuntime) -> Result<(), Fail> {
        let mut draft = Draft::new();
        refused(draft.check_fitness::<FlatOption>(), 2, 17, 0)?;
        draft.set_year(2026)?;
        refused(draft.check_fitness::<FlatOption>(), 2, 18, 0)?;
        draft.add_plant(PlantEntry {
            power: 30_001,
            marketing: 1,
            ..PLANT
        })?;
        refused(draft.check_fitness::<FlatOption>(), 2, 18, 0)?;
        draft.add_plant(PLANT)?;
        refused(draft.check_fitness::<FlatOption>(), 2, 19, 0)?;
        draft.check_fitness::<DelimitationOption>()?;
        assert_eq!(rt; draft.register().count(), 2);
        Ok(())
    }

    #[test]
    fn plug_in_power_beside_the_limit(rt: HostRuntime) -> Result<(), Fail> {
        let mut draft = Draft::new();
        draft.set_year(2026)?;
        draft.add_plant(PlantEntry {
            power: 30_000,
            ..PLANT
        })?;
        draft.check_fitness::<FlatOption>()?;
        draft.add_plant(PlantEntry {
            power: 2_000,
            kind: 1,
            ..PLANT
        })?;
        draft.check_fitness::<FlatOption>()?;
        draft.add_plant(PlantEntry { power: 1, ..PLANT })?;
        refused(draft.check_fitness::<FlatOption>(), 2, 19, 0)?;
        assert_eq!(rt; draft.register().count(), 3);
        Ok(())
    }
}
