//! Worked traces of which `explain` and `picture` tell.

/// A value that was moved out of its allocation, with fields that are set afterwards.
pub const BARE_VALUE: &[u8] = b"{\"fields\":[],\"id\":1,\"op\":\"new\",\"t\":0,\"to\":0}
{\"from\":0,\"id\":2,\"op\":\"clone\",\"t\":0,\"to\":1}
{\"fields\":[null,1],\"id\":3,\"op\":\"new\",\"t\":0,\"to\":2}
{\"from\":2,\"id\":4,\"op\":\"downgrade\",\"t\":0,\"to\":3}
{\"h\":2,\"id\":5,\"op\":\"try_unwrap\",\"t\":0}
{\"from\":0,\"id\":6,\"op\":\"clone\",\"t\":0,\"to\":4}
{\"from\":4,\"h\":2,\"i\":0,\"id\":7,\"op\":\"set\",\"t\":0}
{\"h\":0,\"id\":8,\"op\":\"drop\",\"t\":0}
";

/// One that is given an allocation again.
pub const BARE_VALUE_AGAIN: &[u8] = b"{\"fields\":[],\"id\":1,\"op\":\"new\",\"t\":0,\"to\":0}
{\"fields\":[0],\"id\":2,\"op\":\"new\",\"t\":0,\"to\":2}
{\"h\":2,\"id\":3,\"op\":\"try_unwrap\",\"t\":0}
{\"from\":2,\"id\":4,\"op\":\"new_from\",\"t\":0,\"to\":3}
{\"fields\":[3],\"id\":5,\"op\":\"new\",\"t\":0,\"to\":4}
";

/// A list of three in both directions, with a chain under its end.
pub const DOUBLE_LIST: &[u8] = b"{\"fields\":[null,null],\"id\":1,\"op\":\"new\",\"t\":0,\"to\":0}
{\"fields\":[null,null],\"id\":2,\"op\":\"new\",\"t\":0,\"to\":1}
{\"fields\":[null,null,null],\"id\":3,\"op\":\"new\",\"t\":0,\"to\":2}
{\"from\":1,\"id\":4,\"op\":\"clone\",\"t\":0,\"to\":3}
{\"from\":3,\"h\":0,\"i\":0,\"id\":5,\"op\":\"set\",\"t\":0}
{\"from\":0,\"id\":6,\"op\":\"clone\",\"t\":0,\"to\":4}
{\"from\":4,\"h\":1,\"i\":1,\"id\":7,\"op\":\"set\",\"t\":0}
{\"from\":2,\"id\":8,\"op\":\"clone\",\"t\":0,\"to\":5}
{\"from\":5,\"h\":1,\"i\":0,\"id\":9,\"op\":\"set\",\"t\":0}
{\"from\":1,\"id\":10,\"op\":\"clone\",\"t\":0,\"to\":6}
{\"from\":6,\"h\":2,\"i\":1,\"id\":11,\"op\":\"set\",\"t\":0}
{\"fields\":[],\"id\":12,\"op\":\"new\",\"t\":0,\"to\":7}
{\"fields\":[7],\"id\":13,\"op\":\"new\",\"t\":0,\"to\":8}
{\"from\":8,\"h\":2,\"i\":2,\"id\":14,\"op\":\"set\",\"t\":0}
{\"h\":1,\"id\":15,\"op\":\"drop\",\"t\":0}
{\"h\":0,\"id\":16,\"op\":\"drop\",\"t\":0}
{\"h\":2,\"id\":17,\"op\":\"drop\",\"t\":0}
";

/// Each end of a value and of an allocation.
pub const ENDS: &[u8] = b"{\"fields\":[],\"id\":1,\"op\":\"new\",\"t\":0,\"to\":0}
{\"from\":0,\"id\":2,\"op\":\"downgrade\",\"t\":0,\"to\":1}
{\"h\":0,\"id\":3,\"op\":\"make_mut\",\"t\":0}
{\"h\":1,\"id\":4,\"op\":\"drop\",\"t\":0}
{\"h\":0,\"id\":5,\"op\":\"try_unwrap\",\"t\":0}
{\"fields\":[],\"id\":6,\"op\":\"new\",\"t\":0,\"to\":2}
{\"h\":2,\"id\":7,\"op\":\"drop\",\"t\":0}
{\"fields\":[],\"id\":8,\"op\":\"new\",\"t\":0,\"to\":3}
{\"from\":3,\"id\":9,\"op\":\"downgrade\",\"t\":0,\"to\":4}
{\"h\":3,\"id\":10,\"op\":\"into_inner\",\"t\":0}
{\"from\":4,\"id\":11,\"op\":\"upgrade\",\"t\":0,\"to\":5}
";

/// A husk that a reached and a leaked object keep.
pub const FORGOTTEN_WEAK: &[u8] =
    b"{\"fields\":[null,null,null],\"id\":1,\"op\":\"new\",\"t\":0,\"to\":0}
{\"fields\":[],\"id\":2,\"op\":\"new\",\"t\":0,\"to\":1}
{\"from\":1,\"id\":3,\"op\":\"downgrade\",\"t\":0,\"to\":2}
{\"from\":2,\"h\":0,\"i\":1,\"id\":4,\"op\":\"set\",\"t\":0}
{\"fields\":[0],\"id\":5,\"op\":\"new\",\"t\":0,\"to\":3}
{\"fields\":[null,null],\"id\":6,\"op\":\"new\",\"t\":0,\"to\":4}
{\"from\":1,\"id\":7,\"op\":\"downgrade\",\"t\":0,\"to\":5}
{\"from\":5,\"h\":4,\"i\":1,\"id\":8,\"op\":\"set\",\"t\":0}
{\"from\":4,\"id\":9,\"op\":\"clone\",\"t\":0,\"to\":6}
{\"from\":6,\"h\":4,\"i\":0,\"id\":10,\"op\":\"set\",\"t\":0}
{\"h\":4,\"id\":11,\"op\":\"drop\",\"t\":0}
{\"h\":1,\"id\":12,\"op\":\"drop\",\"t\":0}
";

/// Ways of one length to one object.
pub const LEAST_WAY: &[u8] = b"{\"fields\":[],\"id\":1,\"op\":\"new\",\"t\":0,\"to\":5}
{\"from\":5,\"id\":2,\"op\":\"clone\",\"t\":0,\"to\":6}
{\"from\":5,\"id\":3,\"op\":\"clone\",\"t\":0,\"to\":7}
{\"fields\":[null,6],\"id\":4,\"op\":\"new\",\"t\":0,\"to\":3}
{\"fields\":[7,null],\"id\":5,\"op\":\"new\",\"t\":0,\"to\":2}
{\"from\":2,\"id\":6,\"op\":\"clone\",\"t\":0,\"to\":8}
{\"fields\":[8],\"id\":7,\"op\":\"new\",\"t\":0,\"to\":1}
{\"from\":5,\"id\":8,\"op\":\"clone\",\"t\":0,\"to\":9}
{\"fields\":[null,null,9],\"id\":9,\"op\":\"new\",\"t\":0,\"to\":0}
{\"c\":3,\"from\":0,\"id\":10,\"op\":\"cell_new\",\"t\":0}
{\"h\":5,\"id\":11,\"op\":\"drop\",\"t\":0}
{\"fields\":[2],\"id\":12,\"op\":\"new\",\"t\":0,\"to\":0}
{\"from\":0,\"id\":13,\"op\":\"clone\",\"t\":0,\"to\":4}
{\"c\":1,\"from\":4,\"id\":14,\"op\":\"cell_new\",\"t\":0}
";

/// Places of each kind, and the end of a scope.
pub const SCOPE_AND_PLACES: &[u8] = b"{\"fields\":[null],\"id\":1,\"op\":\"new\",\"t\":0,\"to\":0}
{\"fields\":[],\"id\":2,\"op\":\"new\",\"t\":1,\"to\":1}
{\"from\":1,\"id\":3,\"op\":\"clone\",\"t\":0,\"to\":2}
{\"from\":2,\"h\":0,\"i\":0,\"id\":4,\"op\":\"set\",\"t\":0}
{\"from\":1,\"id\":5,\"op\":\"downgrade\",\"t\":0,\"to\":3}
{\"from\":3,\"h\":0,\"i\":0,\"id\":6,\"op\":\"set\",\"t\":0}
{\"from\":1,\"id\":7,\"op\":\"clone\",\"t\":1,\"to\":4}
{\"c\":0,\"from\":4,\"id\":8,\"op\":\"cell_new\",\"t\":0}
{\"from\":1,\"id\":9,\"op\":\"clone\",\"t\":0,\"to\":5}
{\"from\":1,\"id\":10,\"op\":\"clone\",\"t\":0,\"to\":6}
{\"c\":0,\"desired\":6,\"expected\":5,\"id\":11,\"op\":\"cell_cas\",\"t\":0}
{\"id\":12,\"op\":\"scope_end\",\"t\":1}
{\"id\":13,\"op\":\"null\",\"t\":0,\"to\":7}
{\"c\":0,\"desired\":5,\"expected\":7,\"id\":14,\"op\":\"cell_cas\",\"t\":0}
{\"h\":7,\"id\":15,\"op\":\"drop\",\"t\":0}
";

/// Slots that are put where an equal one stood, or that move with a value.
pub const SINCE_IS_OF_THE_PLACE: &[u8] =
    b"{\"fields\":[null],\"id\":1,\"op\":\"new\",\"t\":0,\"to\":0}
{\"fields\":[],\"id\":2,\"op\":\"new\",\"t\":0,\"to\":1}
{\"from\":1,\"id\":3,\"op\":\"clone\",\"t\":0,\"to\":2}
{\"from\":2,\"h\":0,\"i\":0,\"id\":4,\"op\":\"set\",\"t\":0}
{\"from\":1,\"id\":5,\"op\":\"clone\",\"t\":0,\"to\":3}
{\"from\":3,\"h\":0,\"i\":0,\"id\":6,\"op\":\"set\",\"t\":0}
{\"h\":0,\"id\":7,\"op\":\"counts\",\"t\":0}
{\"from\":0,\"id\":8,\"op\":\"clone\",\"t\":0,\"to\":4}
{\"from\":1,\"h\":0,\"i\":0,\"id\":9,\"op\":\"set\",\"t\":0}
{\"h\":4,\"id\":10,\"op\":\"drop\",\"t\":0}
{\"from\":0,\"id\":11,\"op\":\"downgrade\",\"t\":0,\"to\":5}
{\"h\":0,\"id\":12,\"op\":\"make_mut\",\"t\":0}
{\"from\":0,\"id\":13,\"op\":\"clone\",\"t\":0,\"to\":6}
{\"h\":6,\"id\":14,\"op\":\"make_mut\",\"t\":0}
{\"h\":0,\"i\":0,\"id\":15,\"op\":\"take\",\"t\":0,\"to\":7}
";

/// Two cycles of one object, with one object under both.
pub const TWO_CYCLES: &[u8] = b"{\"fields\":[],\"id\":1,\"op\":\"new\",\"t\":0,\"to\":9}
{\"from\":9,\"id\":2,\"op\":\"clone\",\"t\":0,\"to\":8}
{\"fields\":[null,9],\"id\":3,\"op\":\"new\",\"t\":0,\"to\":0}
{\"from\":0,\"id\":4,\"op\":\"clone\",\"t\":0,\"to\":1}
{\"from\":1,\"h\":0,\"i\":0,\"id\":5,\"op\":\"set\",\"t\":0}
{\"fields\":[null,8],\"id\":6,\"op\":\"new\",\"t\":0,\"to\":2}
{\"from\":2,\"id\":7,\"op\":\"clone\",\"t\":0,\"to\":3}
{\"from\":3,\"h\":2,\"i\":0,\"id\":8,\"op\":\"set\",\"t\":0}
{\"h\":2,\"id\":9,\"op\":\"drop\",\"t\":0}
{\"id\":10,\"op\":\"null\",\"t\":0,\"to\":4}
{\"h\":0,\"id\":11,\"op\":\"drop\",\"t\":0}
{\"h\":4,\"id\":12,\"op\":\"drop\",\"t\":0}
";

/// Two objects that hold each other.
pub const TWO_HOLD_EACH_OTHER: &[u8] =
    b"{\"id\":1,\"t\":0,\"op\":\"new\",\"to\":0,\"fields\":[null]}
{\"id\":2,\"t\":0,\"op\":\"new\",\"to\":1,\"fields\":[null,null]}
{\"id\":3,\"t\":0,\"op\":\"clone\",\"from\":1,\"to\":2}
{\"id\":4,\"t\":0,\"op\":\"set\",\"h\":0,\"i\":0,\"from\":2}
{\"id\":5,\"t\":0,\"op\":\"cell_new\",\"c\":0,\"from\":0}
{\"id\":6,\"t\":1,\"op\":\"cell_load\",\"c\":0,\"to\":3}
{\"id\":7,\"t\":1,\"op\":\"downgrade\",\"from\":3,\"to\":4}
{\"id\":8,\"t\":1,\"op\":\"set\",\"h\":1,\"i\":0,\"from\":3}
{\"id\":9,\"t\":1,\"op\":\"null\",\"to\":5}
{\"id\":10,\"t\":1,\"op\":\"cell_swap\",\"c\":0,\"from\":5}
{\"id\":11,\"t\":0,\"op\":\"drop\",\"h\":1}
{\"id\":12,\"t\":1,\"op\":\"upgrade\",\"from\":4,\"to\":6}
{\"id\":13,\"t\":1,\"op\":\"drop\",\"h\":6}
{\"id\":14,\"t\":1,\"op\":\"drop\",\"h\":4}
{\"id\":15,\"t\":0,\"op\":\"cell_drop\",\"c\":0}
";

/// An object with a `Weak` and an `Arc` to itself, and one with a `Weak` alone.
pub const WEAK_TO_ITSELF: &[u8] =
    b"{\"fields\":[\"me\",null],\"id\":1,\"op\":\"new_cyclic\",\"t\":0,\"to\":0}
{\"from\":0,\"id\":2,\"op\":\"clone\",\"t\":0,\"to\":1}
{\"from\":1,\"h\":0,\"i\":1,\"id\":3,\"op\":\"set\",\"t\":0}
{\"fields\":[\"me\"],\"id\":4,\"op\":\"new_cyclic\",\"t\":0,\"to\":2}
{\"h\":0,\"id\":5,\"op\":\"drop\",\"t\":0}
";
