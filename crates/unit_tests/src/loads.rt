use rv_isa::loaded;

#[test]
fn a_load_extends_its_sign_or_has_zeros_above(rt: HostRuntime) {
    let rows = [
        (true, 0x1234_5680, 0xffff_ff80, 0x5680),
        (false, 0x1234_5680, 0x80, 0x5680),
        (true, 0x0000_8f7f, 0x7f, 0xffff_8f7f),
        (false, 0x0000_8f7f, 0x7f, 0x8f7f),
    ];
    for (signed, word, byte, half) in rows {
        assert_eq!(rt; loaded(1, signed, word), byte);
        assert_eq!(rt; loaded(2, signed, word), half);
        assert_eq!(rt; loaded(4, signed, word), word);
    }
}
