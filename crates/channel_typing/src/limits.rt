//! Limits of what is counted here.
use channel_types::OPEN_TYPES;

/// The greatest count of stages, of places and of channels that an element has here. It stands for all
/// greater ones, of which no design has any: its counts are checked before.
pub const GREATEST_COUNT: u32 = u32::MAX;

const _: () = prove!(GREATEST_COUNT == 4_294_967_295);

/// How many types stand inside one another where they are more than may be, however many they are.
pub const TOO_DEEP: u32 = OPEN_TYPES + 1;

const _: () = prove!(TOO_DEEP == 17);
