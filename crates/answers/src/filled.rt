// The answer as C takes it. Apart, since the definitions that the contracts cite name it.

// The number, and how many bytes stand at the front of the lent buffer. The layout is C's, since calls that give it are exported.
#[repr(C)]
#[derive(Clone, Copy)]
pub struct Filled {
    pub number: u32,
    pub length: u32,
}
