use rv_isa::{Effect, Regs, decode, exec, word_effect};

/// A word that reads x5 and x6 and writes x7; what the two hold; and what x7 holds then, as QEMU ran it.
const COMPUTED: [(u32, u32, u32, u32); 89] = [
    (0x0062_83b3, 0x0000_0000, 0x0000_0000, 0x0000_0000),
    (0x0062_83b3, 0xffff_ffff, 0x0000_0001, 0x0000_0000),
    (0x0062_83b3, 0x8000_0000, 0xffff_ffff, 0x7fff_ffff),
    (0x0062_83b3, 0x7fff_ffff, 0x8000_0000, 0xffff_ffff),
    (0x0062_83b3, 0x1234_5678, 0xffff_f83c, 0x1234_4eb4),
    (0x4062_83b3, 0x0000_0000, 0x0000_0000, 0x0000_0000),
    (0x4062_83b3, 0xffff_ffff, 0x0000_0001, 0xffff_fffe),
    (0x4062_83b3, 0x8000_0000, 0xffff_ffff, 0x8000_0001),
    (0x4062_83b3, 0x7fff_ffff, 0x8000_0000, 0xffff_ffff),
    (0x4062_83b3, 0x1234_5678, 0xffff_f83c, 0x1234_5e3c),
    (0x0062_93b3, 0x0000_0000, 0x0000_0000, 0x0000_0000),
    (0x0062_93b3, 0xffff_ffff, 0x0000_0001, 0xffff_fffe),
    (0x0062_93b3, 0x8000_0000, 0xffff_ffff, 0x0000_0000),
    (0x0062_93b3, 0x7fff_ffff, 0x8000_0000, 0x7fff_ffff),
    (0x0062_93b3, 0x1234_5678, 0xffff_f83c, 0x8000_0000),
    (0x0062_a3b3, 0x0000_0000, 0x0000_0000, 0x0000_0000),
    (0x0062_a3b3, 0xffff_ffff, 0x0000_0001, 0x0000_0001),
    (0x0062_a3b3, 0x8000_0000, 0xffff_ffff, 0x0000_0001),
    (0x0062_a3b3, 0x7fff_ffff, 0x8000_0000, 0x0000_0000),
    (0x0062_a3b3, 0x1234_5678, 0xffff_f83c, 0x0000_0000),
    (0x0062_b3b3, 0x0000_0000, 0x0000_0000, 0x0000_0000),
    (0x0062_b3b3, 0xffff_ffff, 0x0000_0001, 0x0000_0000),
    (0x0062_b3b3, 0x8000_0000, 0xffff_ffff, 0x0000_0001),
    (0x0062_b3b3, 0x7fff_ffff, 0x8000_0000, 0x0000_0001),
    (0x0062_b3b3, 0x1234_5678, 0xffff_f83c, 0x0000_0001),
    (0x0062_c3b3, 0x0000_0000, 0x0000_0000, 0x0000_0000),
    (0x0062_c3b3, 0xffff_ffff, 0x0000_0001, 0xffff_fffe),
    (0x0062_c3b3, 0x8000_0000, 0xffff_ffff, 0x7fff_ffff),
    (0x0062_c3b3, 0x7fff_ffff, 0x8000_0000, 0xffff_ffff),
    (0x0062_c3b3, 0x1234_5678, 0xffff_f83c, 0xedcb_ae44),
    (0x0062_d3b3, 0x0000_0000, 0x0000_0000, 0x0000_0000),
    (0x0062_d3b3, 0xffff_ffff, 0x0000_0001, 0x7fff_ffff),
    (0x0062_d3b3, 0x8000_0000, 0xffff_ffff, 0x0000_0001),
    (0x0062_d3b3, 0x7fff_ffff, 0x8000_0000, 0x7fff_ffff),
    (0x0062_d3b3, 0x1234_5678, 0xffff_f83c, 0x0000_0001),
    (0x4062_d3b3, 0x0000_0000, 0x0000_0000, 0x0000_0000),
    (0x4062_d3b3, 0xffff_ffff, 0x0000_0001, 0xffff_ffff),
    (0x4062_d3b3, 0x8000_0000, 0xffff_ffff, 0xffff_ffff),
    (0x4062_d3b3, 0x7fff_ffff, 0x8000_0000, 0x7fff_ffff),
    (0x4062_d3b3, 0x1234_5678, 0xffff_f83c, 0x0000_0001),
    (0x0062_e3b3, 0x0000_0000, 0x0000_0000, 0x0000_0000),
    (0x0062_e3b3, 0xffff_ffff, 0x0000_0001, 0xffff_ffff),
    (0x0062_e3b3, 0x8000_0000, 0xffff_ffff, 0xffff_ffff),
    (0x0062_e3b3, 0x7fff_ffff, 0x8000_0000, 0xffff_ffff),
    (0x0062_e3b3, 0x1234_5678, 0xffff_f83c, 0xffff_fe7c),
    (0x0062_f3b3, 0x0000_0000, 0x0000_0000, 0x0000_0000),
    (0x0062_f3b3, 0xffff_ffff, 0x0000_0001, 0x0000_0001),
    (0x0062_f3b3, 0x8000_0000, 0xffff_ffff, 0x8000_0000),
    (0x0062_f3b3, 0x7fff_ffff, 0x8000_0000, 0x0000_0000),
    (0x0062_f3b3, 0x1234_5678, 0xffff_f83c, 0x1234_5038),
    (0xfff2_8393, 0x0000_0000, 0x0000_0000, 0xffff_ffff),
    (0x7ff2_8393, 0xffff_ffff, 0x0000_0000, 0x0000_07fe),
    (0x8002_8393, 0x8000_0000, 0x0000_0000, 0x7fff_f800),
    (0x0012_8393, 0x7fff_ffff, 0x0000_0000, 0x8000_0000),
    (0x8002_8393, 0xffff_f800, 0x0000_0000, 0xffff_f000),
    (0xfff2_a393, 0x0000_0000, 0x0000_0000, 0x0000_0000),
    (0x7ff2_a393, 0xffff_ffff, 0x0000_0000, 0x0000_0001),
    (0x8002_a393, 0x8000_0000, 0x0000_0000, 0x0000_0001),
    (0x0012_a393, 0x7fff_ffff, 0x0000_0000, 0x0000_0000),
    (0x8002_a393, 0xffff_f800, 0x0000_0000, 0x0000_0000),
    (0xfff2_b393, 0x0000_0000, 0x0000_0000, 0x0000_0001),
    (0x7ff2_b393, 0xffff_ffff, 0x0000_0000, 0x0000_0000),
    (0x8002_b393, 0x8000_0000, 0x0000_0000, 0x0000_0001),
    (0x0012_b393, 0x7fff_ffff, 0x0000_0000, 0x0000_0000),
    (0x8002_b393, 0xffff_f800, 0x0000_0000, 0x0000_0000),
    (0xfff2_c393, 0x0000_0000, 0x0000_0000, 0xffff_ffff),
    (0x7ff2_c393, 0xffff_ffff, 0x0000_0000, 0xffff_f800),
    (0x8002_c393, 0x8000_0000, 0x0000_0000, 0x7fff_f800),
    (0x0012_c393, 0x7fff_ffff, 0x0000_0000, 0x7fff_fffe),
    (0x8002_c393, 0xffff_f800, 0x0000_0000, 0x0000_0000),
    (0xfff2_e393, 0x0000_0000, 0x0000_0000, 0xffff_ffff),
    (0x7ff2_e393, 0xffff_ffff, 0x0000_0000, 0xffff_ffff),
    (0x8002_e393, 0x8000_0000, 0x0000_0000, 0xffff_f800),
    (0x0012_e393, 0x7fff_ffff, 0x0000_0000, 0x7fff_ffff),
    (0x8002_e393, 0xffff_f800, 0x0000_0000, 0xffff_f800),
    (0xfff2_f393, 0x0000_0000, 0x0000_0000, 0x0000_0000),
    (0x7ff2_f393, 0xffff_ffff, 0x0000_0000, 0x0000_07ff),
    (0x8002_f393, 0x8000_0000, 0x0000_0000, 0x8000_0000),
    (0x0012_f393, 0x7fff_ffff, 0x0000_0000, 0x0000_0001),
    (0x8002_f393, 0xffff_f800, 0x0000_0000, 0xffff_f800),
    (0x0002_9393, 0xffff_ffff, 0x0000_0000, 0xffff_ffff),
    (0x01f2_9393, 0x8000_0000, 0x0000_0000, 0x0000_0000),
    (0x0042_9393, 0x1234_5678, 0x0000_0000, 0x2345_6780),
    (0x0002_d393, 0xffff_ffff, 0x0000_0000, 0xffff_ffff),
    (0x01f2_d393, 0x8000_0000, 0x0000_0000, 0x0000_0001),
    (0x0042_d393, 0x1234_5678, 0x0000_0000, 0x0123_4567),
    (0x4002_d393, 0xffff_ffff, 0x0000_0000, 0xffff_ffff),
    (0x41f2_d393, 0x8000_0000, 0x0000_0000, 0xffff_ffff),
    (0x4042_d393, 0x1234_5678, 0x0000_0000, 0x0123_4567),
];

/// A branch that compares x5 and x6 and leads 8 on; what the two hold; and whether QEMU took it.
const BRANCHES: [(u32, u32, u32, bool); 24] = [
    (0x0062_8463, 0x0000_0005, 0x0000_0005, true),
    (0x0062_8463, 0xffff_ffff, 0x0000_0001, false),
    (0x0062_8463, 0x0000_0001, 0xffff_ffff, false),
    (0x0062_8463, 0x7fff_ffff, 0x8000_0000, false),
    (0x0062_9463, 0x0000_0005, 0x0000_0005, false),
    (0x0062_9463, 0xffff_ffff, 0x0000_0001, true),
    (0x0062_9463, 0x0000_0001, 0xffff_ffff, true),
    (0x0062_9463, 0x7fff_ffff, 0x8000_0000, true),
    (0x0062_c463, 0x0000_0005, 0x0000_0005, false),
    (0x0062_c463, 0xffff_ffff, 0x0000_0001, true),
    (0x0062_c463, 0x0000_0001, 0xffff_ffff, false),
    (0x0062_c463, 0x7fff_ffff, 0x8000_0000, false),
    (0x0062_d463, 0x0000_0005, 0x0000_0005, true),
    (0x0062_d463, 0xffff_ffff, 0x0000_0001, false),
    (0x0062_d463, 0x0000_0001, 0xffff_ffff, true),
    (0x0062_d463, 0x7fff_ffff, 0x8000_0000, true),
    (0x0062_e463, 0x0000_0005, 0x0000_0005, false),
    (0x0062_e463, 0xffff_ffff, 0x0000_0001, false),
    (0x0062_e463, 0x0000_0001, 0xffff_ffff, true),
    (0x0062_e463, 0x7fff_ffff, 0x8000_0000, true),
    (0x0062_f463, 0x0000_0005, 0x0000_0005, true),
    (0x0062_f463, 0xffff_ffff, 0x0000_0001, true),
    (0x0062_f463, 0x0000_0001, 0xffff_ffff, false),
    (0x0062_f463, 0x7fff_ffff, 0x8000_0000, false),
];

/// The effect of a word at 0x1000, where x5 and x6 hold these, or none where the word is no instruction.
fn effect_at(word: u32, first: u32, second: u32) -> Option<Effect> {
    let mut regs = Regs::zero();
    regs.set(5, first);
    regs.set(6, second);
    let inst = decode(word).ok()?;
    Some(exec(&regs, 0x1000, inst))
}

#[test]
fn values_are_those_of_another_machine(rt: HostRuntime) {
    for (word, first, second, value) in COMPUTED {
        let went = Effect::Go {
            rd: 7,
            value,
            next: 0x1004,
        };
        assert_eq!(rt;
            effect_at(word, first, second),
            Some(went),
            "at {word:#010x}"
        );
    }
}

#[test]
fn branches_are_taken_as_on_another_machine(rt: HostRuntime) {
    for (word, first, second, taken) in BRANCHES {
        let went = Effect::Go {
            rd: 0,
            value: 0,
            next: if taken { 0x1008 } else { 0x1004 },
        };
        assert_eq!(rt;
            effect_at(word, first, second),
            Some(went),
            "at {word:#010x}"
        );
    }
}

#[test]
fn jumps_go_to_multiples_of_4_alone(rt: HostRuntime) {
    // lui x5, 0x80000; auipc x5, 0xfffff; jal x1, . + 8; jalr x1, 9(x5); bne x5, x5, . + 2
    for (word, rd, value, next) in [
        (0x8000_02b7, 5, 0x8000_0000, 0x1004),
        (0xffff_f297, 5, 0, 0x1004),
        (0x0080_00ef, 1, 0x1004, 0x1008),
        (0x0092_80e7, 1, 0x1004, 0x8000_0008),
        (0x0052_9163, 0, 0, 0x1004),
    ] {
        assert_eq!(rt;
            effect_at(word, 0x8000_0000, 0),
            Some(Effect::Go { rd, value, next })
        );
    }
    // jal x1, . + 2; jalr x1, 6(x5); beq x5, x5, . + 2
    for word in [0x0020_00ef, 0x0062_80e7, 0x0052_8163] {
        assert_eq!(rt; effect_at(word, 0x8000_0000, 0), Some(Effect::BadTarget));
    }
}

#[test]
fn loads_and_stores_have_an_address_and_a_width(rt: HostRuntime) {
    // lb x7, -1(x5); lh x7, 2(x5); lw x7, 4(x5); lbu x7, 2047(x5); lhu x7, -2048(x5)
    for (word, bytes, signed, addr) in [
        (0xfff2_8383, 1, true, 0x7fff_ffff),
        (0x0022_9383, 2, true, 0x8000_0002),
        (0x0042_a383, 4, false, 0x8000_0004),
        (0x7ff2_c383, 1, false, 0x8000_07ff),
        (0x8002_d383, 2, false, 0x7fff_f800),
    ] {
        let rd = 7;
        let load = Effect::Load {
            rd,
            bytes,
            signed,
            addr,
        };
        assert_eq!(rt; effect_at(word, 0x8000_0000, 0), Some(load));
    }
    // sb x6, -1(x5); sh x6, 2(x5); sw x6, 4(x5)
    for (word, bytes, addr, value) in [
        (0xfe62_8fa3, 1, 0x7fff_ffff, 0x78),
        (0x0062_9123, 2, 0x8000_0002, 0x5678),
        (0x0062_a223, 4, 0x8000_0004, 0x1234_5678),
    ] {
        assert_eq!(rt;
            effect_at(word, 0x8000_0000, 0x1234_5678),
            Some(Effect::Store { bytes, addr, value })
        );
    }
}

#[test]
fn the_rest_is_named(rt: HostRuntime) {
    // fence iorw, iorw; ecall; ebreak
    for (word, effect) in [
        (0x0ff0_000f, Effect::Fence),
        (0x0000_0073, Effect::Call),
        (0x0010_0073, Effect::Break),
    ] {
        assert_eq!(rt; effect_at(word, 1, 2), Some(effect));
    }
}
