// A write of a command.
#[derive(Clone, Copy, PartialEq, Eq, Debug, Default)]
pub struct Write {
    pub address: u32,
    pub data: u16,
}
