//! What a module posts to another, and what the kernel posts to a module.

/// How many messages each of the two queues holds.
pub const QUEUE_MESSAGES: usize = 16;

/// A message, with a payload of type `P` or none.
///
/// After SOS (Han et al., MobiSys 2005): a message has a receiver, a sender, a type and two small arguments.
/// A long message has bytes besides, which stand elsewhere; `load` is what holds them. `len` is how many they
/// are, 0 in a short message and in a long one without payload.
#[derive(Drop)]
pub struct Msg<P> {
    /// The id of the module that receives it.
    pub to: u8,
    /// The id of the module that sent it, 0 where the kernel did, 255 where it came by radio.
    pub from: u8,
    /// Its type, by which the receiver's handler tells messages apart.
    pub sort: u8,
    /// The first small argument.
    pub byte: u8,
    /// The second small argument.
    pub word: u16,
    /// Whether it is a long message.
    pub long: bool,
    /// How many bytes its payload has.
    pub len: u16,
    /// What holds the payload.
    pub load: Option<P>,
    /// Whether it waits in the high queue, and not in the low one.
    pub high: bool,
}
