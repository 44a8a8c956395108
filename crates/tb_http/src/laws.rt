//! Laws of the wire.
ghost use Rattle.tb_http.specs.Laws.{OneMessage, NoOtherFault, OneFault};
ghost use Rattle.tb_http.specs.Stream.{BringsMore, OneStream};

/// What a connection brings is determined by its bytes, however they are cut.
pub fn one_reading()
    ensures message { OneMessage }
    ensures fault { NoOtherFault }
    ensures one_fault { OneFault }
{}

/// A stream brings the same messages in whatever pieces it comes.
pub fn one_stream()
    ensures more { BringsMore }
    ensures one { OneStream }
{}
