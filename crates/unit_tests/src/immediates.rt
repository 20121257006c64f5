use rv_isa::{Inst, Op, encode};

/// ADDI to x1 with immediates of 12 bits, as the GNU assembler makes them, and with others.
#[test]
fn an_immediate_is_tried_when_the_program_runs(rt: HostRuntime) {
    let rows = [
        (0x7ff, Some(0x7ff0_0093)),
        (0xffff_f800, Some(0x8000_0093)),
        (0xffff_ffff, Some(0xfff0_0093)),
        (0x800, None),
        (0xffff_f7ff, None),
    ];
    for (imm, word) in rows {
        let inst = Inst::of(Op::Addi, 1, 0, 0, imm);
        assert_eq!(rt; inst.map(|inst| encode(inst)), word, "{imm:#x}");
    }
    assert_eq!(rt; Inst::of(Op::Addi, 32, 0, 0, 0), None);
    assert_eq!(rt; Inst::of(Op::Addi, 1, 0, 3, 0), None);
}
