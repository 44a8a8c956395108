ghost use Rattle.tb_graph.specs.Leads.{AreWalksDecided, IsAcyclicDecided};

/// A walk exists exactly where `leads`, a test that computes, is true.
pub fn walks_are_decided()
    ensures { AreWalksDecided }
{}

/// A graph is acyclic exactly where `is_acyclic`, a test that computes, is true.
pub fn acyclic_is_decided()
    ensures { IsAcyclicDecided }
{}
