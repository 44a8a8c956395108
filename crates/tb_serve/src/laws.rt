//! Laws of several connections.
ghost use Rattle.tb_serve.specs.Laws.{AnyTurns, OneAlone};

/// Whatever turns connections take, each is told what its own messages are told; and one alone is told what `serve_reader` of
/// `tb_serve` tells.
pub fn any_turns()
    ensures turns { AnyTurns }
    ensures alone { OneAlone }
{}
