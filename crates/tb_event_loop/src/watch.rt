//! Whether what is served is still where it was.
ghost use Rattle.std.specs.Prelude.{◌≡◌, Bool, List, [], ◌∷◌, false};

/// A look at what is served, which its service doesn't see: a file stays open after it was moved or removed.
pub trait Watch {
    /// A look found it no longer where it was.
    ghost is_gone: { Self → Type 0 };

    /// One watch comes of another by looks with these answers, in this order.
    ghost looks: { List Bool → Self → Self → Type 0 };

    fn is_there(&mut self) -> bool
        ensures looked { looks (result ∷ []) self.old self.new }
        ensures gone { result ≡ false → is_gone self.new };
}
