use c6x_reloc::{Inputs, RelocError, RelocKind, kind_of, patch, value, width};

/// Inputs of zeros but for the symbol's address.
fn symbol_at(s: u32) -> Inputs {
    Inputs {
        s,
        a: 0,
        p: 0,
        b: 0,
        g: 0,
        index: 0,
    }
}

/// The value of a kind, with nothing known of it.
fn value_of(kind: RelocKind, inputs: Inputs) -> Result<u32, RelocError> {
    value(kind, &inputs)
}

#[test]
fn values_of_symbols(rt: HostRuntime) {
    for (s, want) in [
        (0x40, Ok(16)),
        (0x003F_FFFC, Ok(0xF_FFFF)),
        (0x0040_0000, Err(RelocError::Range)),
        (0x42, Err(RelocError::Align)),
    ] {
        let branch = Inputs {
            p: 0x1C,
            ..symbol_at(s)
        };
        assert_eq!(&rt; value_of(RelocKind::PCR_S21, branch), want, "at {s}");
    }
    for (s, want) in [
        (131_068, Ok(32_767)),
        (131_072, Err(RelocError::Range)),
        (131_066, Err(RelocError::Align)),
    ] {
        assert_eq!(&rt;
            value_of(RelocKind::SBR_U15_W, symbol_at(s)),
            want,
            "at {s}"
        );
    }
}

#[test]
fn values_of_addends_and_indexes(rt: HostRuntime) {
    let got = Inputs {
        a: 4,
        ..symbol_at(0)
    };
    assert_eq!(&rt;
        value_of(RelocKind::SBR_GOT_U15_W, got),
        Err(RelocError::Addend)
    );
    let below = Inputs {
        a: -4,
        ..symbol_at(0)
    };
    assert_eq!(&rt; value_of(RelocKind::ABS32, below), Ok(0xFFFF_FFFC));
    for (index, want) in [
        (5, Ok(5)),
        (32_767, Ok(32_767)),
        (32_768, Err(RelocError::Range)),
    ] {
        let module = Inputs {
            index,
            ..symbol_at(0)
        };
        assert_eq!(&rt; value_of(RelocKind::DSBT_INDEX, module), want, "at {index}");
    }
}

#[test]
#[tactic(auto, unfolding(c6x_reloc::specs::Table::row_of))]
fn fields_of_kinds(rt: HostRuntime) {
    assert_eq!(&rt; kind_of(26), Err(RelocError::Kind));
    assert_eq!(&rt; kind_of(4), Ok(RelocKind::PCR_S21));
    assert_eq!(&rt; width(RelocKind::PCR_S21), 21);
    assert_eq!(&rt; width(RelocKind::NONE), 0);
    assert_eq!(&rt; patch(0x0700_006E, RelocKind::DSBT_INDEX, 5), 0x0700_056E);
    assert_eq!(&rt;
        patch(0x0700_006E, RelocKind::DSBT_INDEX, 32_767),
        0x077F_FF6E
    );
}
