// Laws of lines.
ghost use Rattle.gs_lines.specs.Order.{KeepsLines, IsInOrder, IsOnlyOrder};

/// The rising order of lines is the one order of the same lines in which each is in order with the
/// next.
pub fn one_rising_order()
    ensures lines { KeepsLines }
    ensures order { IsInOrder }
    ensures one { IsOnlyOrder }
{}
