//! The plan of a body is good, where its names are.
ghost use Rattle.plan_laws.specs.Ahead.{EachAhead};
ghost use Rattle.plan_laws.specs.Blocks.{EachClient, EachServed};
ghost use Rattle.plan_laws.specs.Once.{EachPlan};

/// Where what each element takes stands before it, and what the body hands out is driven, the steps of the
/// body's plan take earlier channels, each instance is given as many channels as its module's plan takes, and
/// what is handed out are channels of the body. It does nothing when it runs.
pub fn ahead_law()
    ensures { EachAhead }
{}

/// Where no two instances have one application id, the endpoints of each to the server stand together among
/// the channels that the body is given, and so do those to the client among all its channels. It does nothing
/// when it runs.
pub fn blocks_law()
    ensures served { EachServed }
    ensures client { EachClient }
{}

/// Where, beside that, no two channels have one name, and each name is used once, the body's plan is good. It
/// does nothing when it runs.
pub fn plan_law()
    ensures { EachPlan }
{}
