use crate::caller::CallingThread;

/// Which held calls are renewed.
#[derive(Clone, Copy, Debug)]
pub enum WhichCalls<'a> {
    /// Those of the process of this thread, except its own: its call sets the ids of the process.
    OthersOf(CallingThread),
    /// Those of all processes under the policy of this binary, which is replaced.
    Under(&'a [u8]),
}

/// Held calls that are renewed, and the version of their policy that they get.
#[derive(Clone, Copy, Debug)]
pub struct RenewedCalls<'a> {
    pub which: WhichCalls<'a>,
    pub version: u32,
}
