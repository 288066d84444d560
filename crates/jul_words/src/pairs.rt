//! Two tokens as one.
ghost use Rattle.std.specs.Prelude.{◌≡◌, ◌+◌, ◌++◌, true, length};
ghost use Rattle.std.proofs.Common.{length-append, ◌∙◌};

use jul_base::Share;

/// Two tokens that are split and joined together.
///
/// Its log and its home have the parts of `a` and then those of `b`.
#[derive(Drop)]
pub struct Both<A: Share, B: Share> {
    pub a: A,
    pub b: B,
    ghost roots: { A.is_root a ≡ B.is_root b },
    ghost out: { A.is_root a ≡ true → A.out a ≡ B.out b },
}

impl<A: Share, B: Share> Share for Both<A, B> {
    ghost parts = { A.parts + B.parts };

    ghost log = { λ x. A.log x.a ++ B.log x.b };

    ghost home = { λ x. A.home x.a ++ B.home x.b };

    ghost is_root = { λ x. A.is_root x.a };

    ghost out = { λ x. A.out x.a };

    ghost log_has_parts = { λ x. length-append _ _ ∙ (λ i. A.log_has_parts x.a i + B.log_has_parts x.b i) };

    ghost home_has_parts = { λ x. length-append _ _ ∙ (λ i. A.home_has_parts x.a i + B.home_has_parts x.b i) };

    fn split(&mut self) -> Both<A, B> {
        let a = self.a.split();
        let b = self.b.split();
        Both { a, b }
    }

    fn join(&mut self, other: Both<A, B>) {
        let Both { a, b } = other;
        self.a.join(a);
        self.b.join(b);
    }
}
