use rv_isa::{Illegal, Inst, Op, decode, encode};

/// Words that the GNU assembler made of an instruction, its rd, rs1 and rs2, and its immediate.
const ASSEMBLED: [(u32, Op, u8, u8, u8, u32); 64] = [
    (0x000000b7, Op::Lui, 1, 0, 0, 0x0),
    (0xffffffb7, Op::Lui, 31, 0, 0, 0xfffff000),
    (0x80000537, Op::Lui, 10, 0, 0, 0x80000000),
    (0x00001297, Op::Auipc, 5, 0, 0, 0x1000),
    (0xfffff317, Op::Auipc, 6, 0, 0, 0xfffff000),
    (0x0000006f, Op::Jal, 0, 0, 0, 0x0),
    (0x7ffff0ef, Op::Jal, 1, 0, 0, 0xffffe),
    (0x80000fef, Op::Jal, 31, 0, 0, 0xfff00000),
    (0x001002ef, Op::Jal, 5, 0, 0, 0x800),
    (0x00008067, Op::Jalr, 0, 1, 0, 0x0),
    (0x7fff80e7, Op::Jalr, 1, 31, 0, 0x7ff),
    (0x800302e7, Op::Jalr, 5, 6, 0, 0xfffff800),
    (0x80000063, Op::Beq, 0, 0, 0, 0xfffff000),
    (0x7e208fe3, Op::Beq, 0, 1, 2, 0xffe),
    (0x004190e3, Op::Bne, 0, 3, 4, 0x800),
    (0xfe62cfe3, Op::Blt, 0, 5, 6, 0xfffffffe),
    (0x0083df63, Op::Bge, 0, 7, 8, 0x1e),
    (0x80a4e0e3, Op::Bltu, 0, 9, 10, 0xfffff800),
    (0x41eff063, Op::Bgeu, 0, 31, 30, 0x400),
    (0x00010083, Op::Lb, 1, 2, 0, 0x0),
    (0xfff20183, Op::Lb, 3, 4, 0, 0xffffffff),
    (0x7ff31283, Op::Lh, 5, 6, 0, 0x7ff),
    (0x80042383, Op::Lw, 7, 8, 0, 0xfffff800),
    (0x00554483, Op::Lbu, 9, 10, 0, 0x5),
    (0xffa65583, Op::Lhu, 11, 12, 0, 0xfffffffa),
    (0x00110023, Op::Sb, 0, 2, 1, 0x0),
    (0xfed70fa3, Op::Sb, 0, 14, 13, 0xffffffff),
    (0x7ef81fa3, Op::Sh, 0, 16, 15, 0x7ff),
    (0x81192023, Op::Sw, 0, 18, 17, 0xfffff800),
    (0x00000013, Op::Addi, 0, 0, 0, 0x0),
    (0xfff10093, Op::Addi, 1, 2, 0, 0xffffffff),
    (0x7ffa0993, Op::Addi, 19, 20, 0, 0x7ff),
    (0x800b2a93, Op::Slti, 21, 22, 0, 0xfffff800),
    (0xfffc3b93, Op::Sltiu, 23, 24, 0, 0xffffffff),
    (0xfffd4c93, Op::Xori, 25, 26, 0, 0xffffffff),
    (0x7ffe6d93, Op::Ori, 27, 28, 0, 0x7ff),
    (0x800f7e93, Op::Andi, 29, 30, 0, 0xfffff800),
    (0x01ff9093, Op::Slli, 1, 31, 0, 0x1f),
    (0x00019113, Op::Slli, 2, 3, 0, 0x0),
    (0x00115193, Op::Srli, 3, 2, 0, 0x1),
    (0x41f2d213, Op::Srai, 4, 5, 0, 0x1f),
    (0x003100b3, Op::Add, 1, 2, 3, 0x0),
    (0x41df0fb3, Op::Sub, 31, 30, 29, 0x0),
    (0x00629233, Op::Sll, 4, 5, 6, 0x0),
    (0x009423b3, Op::Slt, 7, 8, 9, 0x0),
    (0x00c5b533, Op::Sltu, 10, 11, 12, 0x0),
    (0x00f746b3, Op::Xor, 13, 14, 15, 0x0),
    (0x0128d833, Op::Srl, 16, 17, 18, 0x0),
    (0x415a59b3, Op::Sra, 19, 20, 21, 0x0),
    (0x018beb33, Op::Or, 22, 23, 24, 0x0),
    (0x01bd7cb3, Op::And, 25, 26, 27, 0x0),
    (0x0ff0000f, Op::Fence, 0, 0, 0, 0x0),
    (0x00000073, Op::Ecall, 0, 0, 0, 0x0),
    (0x00100073, Op::Ebreak, 0, 0, 0, 0x0),
    (0xff800293, Op::Addi, 5, 0, 0, 0xfffffff8),
    (0x4012d313, Op::Srai, 6, 5, 0, 0x1),
    (0xfff2b393, Op::Sltiu, 7, 5, 0, 0xffffffff),
    (0x00a30513, Op::Addi, 10, 6, 0, 0xa),
    (0x00750533, Op::Add, 10, 10, 7, 0x0),
    (0x10400113, Op::Addi, 2, 0, 0, 0x104),
    (0xfea12e23, Op::Sw, 0, 2, 10, 0xfffffffc),
    (0xffc12503, Op::Lw, 10, 2, 0, 0xfffffffc),
    (0x05d00893, Op::Addi, 17, 0, 0, 0x5d),
    (0x02d00093, Op::Addi, 1, 0, 0, 0x2d),
];

#[test]
fn assembled_words_are_read_and_written(rt: HostRuntime) {
    for (word, op, rd, rs1, rs2, imm) in ASSEMBLED {
        let inst = decode(word).expect(&rt, "an instruction");
        assert_eq!(rt; inst.op, op, "at {word:#010x}");
        assert_eq!(rt;
            [inst.rd, inst.rs1, inst.rs2],
            [rd, rs1, rs2],
            "at {word:#010x}"
        );
        assert_eq!(rt; inst.imm, imm, "at {word:#010x}");
        if op != Op::Fence {
            assert_eq!(rt; encode(inst), word);
        }
    }
}

/// Fences of other orders and with registers, among them FENCE.TSO and PAUSE.
#[test]
fn every_fence_is_one_instruction(rt: HostRuntime) {
    for word in [
        0x0000_000f,
        0x0ff0_000f,
        0x8330_000f,
        0x0100_000f,
        0xffff_8f8f,
    ] {
        let inst = decode(word).expect(&rt, "a fence");
        assert_eq!(rt; inst.op, Op::Fence);
        assert_eq!(rt; encode(inst), 0x0000_000f);
    }
}

/// Zeros and ones, a compressed word, MUL, FENCE.I, CSRRW, MRET, LD, SD, SLLI by 32, SUB's `funct7` at AND, JALR with `funct3` 1, a branch with `funct3` 2.
#[test]
fn words_of_other_instruction_sets_are_illegal(rt: HostRuntime) {
    for word in [
        0x0000_0000,
        0xffff_ffff,
        0x0000_4501,
        0x0220_81b3,
        0x0000_100f,
        0x3000_1073,
        0x3020_0073,
        0x0001_3083,
        0x0011_3023,
        0x0200_9093,
        0x4020_f1b3,
        0x0000_9067,
        0x0000_2063,
    ] {
        assert_eq!(rt; decode(word), Err(Illegal { word }));
    }
}

#[test]
fn an_instruction_and_a_refusal_have_their_texts(rt: HostRuntime) {
    let illegal = Illegal { word: 0x4501 };
    let text = format!(in rt.alloc(); "{}: {illegal}", Op::Sltiu).expect(&rt, "memory");
    assert_eq!(rt;
        text.as_str(),
        "sltiu: 0x00004501 is no instruction of RV32I"
    );
}
