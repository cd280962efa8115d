// What read answers. Apart, since the definitions that the contracts cite name it.

// What is read of a module but its bytes.
#[derive(Clone, Copy)]
pub struct Header {
    pub page: u8,
    pub start: u16,
    pub end: u16,
    pub transfer: u16,
    pub length: u32,
}

// The answer as C takes it, since the call is exported.
#[repr(C)]
#[derive(Clone, Copy)]
pub struct Reading {
    pub number: u32,
    pub page: u32,
    pub start: u32,
    pub end: u32,
    pub transfer: u32,
    pub length: u32,
}
