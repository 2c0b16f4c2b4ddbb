// Characters that the rules name, in ASCII (rules 9.1, 9.2).
pub(crate) const NEWLINE: u8 = b'\n';

pub(crate) const SPACE: u8 = b' ';

pub(crate) const DIGIT_0: u8 = b'0';

pub(crate) const DIGIT_1: u8 = b'1';
