// What the calculator says of itself.
pub const TEXT: &str = "usage: calculator [FILE]

Reads a script, from FILE or from standard input, one form a line, and prints
one line of answer for each.

  (algebra n RING ORDER)   opens an algebra with the generators x1 to xn, n at most 8
                           RING: (int), (mod m) or (qpoly); ORDER: (lex) or (deg w ..)
      (algebra 2 (int) (deg 1 1))
  (rel j i c TERM ..)      declares xj xi = c xi xj + TERM .., for j above i
                           TERM: (coefficient x1 ..)
      (rel 2 1 1 (1))
  (decide)                 closes the algebra and decides whether the standard words are a basis
      (decide)
  (calc E)                 calculates; E: a generator, a coefficient, (+ E E ..), (* E E ..), (- E E)
      (calc (* x2 x2 x1 x1))

Answers: (opened), (declared), (sound), (degenerate i j k), (list TERM ..) and
(refused number layer line step a b e i j k). A refused line changes nothing.

  calculator --help        prints this
  calculator --version     prints the version
";
