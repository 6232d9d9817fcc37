// The main columns, in the order of the row.
ghost use Rattle.std.specs.Prelude.{◌≡◌};
ghost use Rattle.air.specs.MainColumn.{columns};

use crate::MainIndex;

impl MainIndex {
    pub const COUNT: usize = 39;

    pub const CLK: MainIndex = MainIndex(0);

    pub const IS_PADDING: MainIndex = MainIndex(1);

    pub const IP: MainIndex = MainIndex(2);

    pub const CI: MainIndex = MainIndex(3);

    pub const NIA: MainIndex = MainIndex(4);

    pub const IB0: MainIndex = MainIndex(5);

    pub const IB1: MainIndex = MainIndex(6);

    pub const IB2: MainIndex = MainIndex(7);

    pub const IB3: MainIndex = MainIndex(8);

    pub const IB4: MainIndex = MainIndex(9);

    pub const IB5: MainIndex = MainIndex(10);

    pub const IB6: MainIndex = MainIndex(11);

    pub const JSP: MainIndex = MainIndex(12);

    pub const JSO: MainIndex = MainIndex(13);

    pub const JSD: MainIndex = MainIndex(14);

    pub const ST0: MainIndex = MainIndex(15);

    pub const ST1: MainIndex = MainIndex(16);

    pub const ST2: MainIndex = MainIndex(17);

    pub const ST3: MainIndex = MainIndex(18);

    pub const ST4: MainIndex = MainIndex(19);

    pub const ST5: MainIndex = MainIndex(20);

    pub const ST6: MainIndex = MainIndex(21);

    pub const ST7: MainIndex = MainIndex(22);

    pub const ST8: MainIndex = MainIndex(23);

    pub const ST9: MainIndex = MainIndex(24);

    pub const ST10: MainIndex = MainIndex(25);

    pub const ST11: MainIndex = MainIndex(26);

    pub const ST12: MainIndex = MainIndex(27);

    pub const ST13: MainIndex = MainIndex(28);

    pub const ST14: MainIndex = MainIndex(29);

    pub const ST15: MainIndex = MainIndex(30);

    pub const OP_STACK_POINTER: MainIndex = MainIndex(31);

    pub const HV0: MainIndex = MainIndex(32);

    pub const HV1: MainIndex = MainIndex(33);

    pub const HV2: MainIndex = MainIndex(34);

    pub const HV3: MainIndex = MainIndex(35);

    pub const HV4: MainIndex = MainIndex(36);

    pub const HV5: MainIndex = MainIndex(37);

    pub const CLOCK_JUMP_DIFFERENCE_LOOKUP_MULTIPLICITY: MainIndex = MainIndex(38);

    // Each column once, in the order of the row.
    pub fn all() -> [usize; MainIndex::COUNT]
        ensures { result ≡ columns }
    {
        [
            MainIndex::CLK.0,
            MainIndex::IS_PADDING.0,
            MainIndex::IP.0,
            MainIndex::CI.0,
            MainIndex::NIA.0,
            MainIndex::IB0.0,
            MainIndex::IB1.0,
            MainIndex::IB2.0,
            MainIndex::IB3.0,
            MainIndex::IB4.0,
            MainIndex::IB5.0,
            MainIndex::IB6.0,
            MainIndex::JSP.0,
            MainIndex::JSO.0,
            MainIndex::JSD.0,
            MainIndex::ST0.0,
            MainIndex::ST1.0,
            MainIndex::ST2.0,
            MainIndex::ST3.0,
            MainIndex::ST4.0,
            MainIndex::ST5.0,
            MainIndex::ST6.0,
            MainIndex::ST7.0,
            MainIndex::ST8.0,
            MainIndex::ST9.0,
            MainIndex::ST10.0,
            MainIndex::ST11.0,
            MainIndex::ST12.0,
            MainIndex::ST13.0,
            MainIndex::ST14.0,
            MainIndex::ST15.0,
            MainIndex::OP_STACK_POINTER.0,
            MainIndex::HV0.0,
            MainIndex::HV1.0,
            MainIndex::HV2.0,
            MainIndex::HV3.0,
            MainIndex::HV4.0,
            MainIndex::HV5.0,
            MainIndex::CLOCK_JUMP_DIFFERENCE_LOOKUP_MULTIPLICITY.0,
        ]
    }
}
