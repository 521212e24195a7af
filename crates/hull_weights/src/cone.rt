ghost use Rattle.std.specs.Prelude.{◌≡◌, ◌≢◌, ℤ, ◌<◌, ◌≤◌, ◌^◌, ◌<ℤ◌, ◌+ℤ◌, ◌*ℤ◌, pos, unsigned_abs};
ghost use Rattle.hull_weights.specs.Cone.{EachArrow, IsBalance, IsInCone, IsProper, IsWider, MatchStep, ahead, turn};
ghost use Rattle.hull_weights.specs.Hull.{IsSmallNormal, x_of, y_of};

use crate::arrow::Arrow;

/// A cone of less than half a turn that has all arrows so far.
#[derive(Clone, Copy)]
pub enum Cone {
    Empty,
    /// All arrows point the same way.
    Ray(Arrow),
    /// The arrows lie between the first, to the right, and the second, to the left.
    Wedge(Arrow, Arrow),
}

/// Arrows that add up to zero with these weights. The first and the second may have weight 0.
#[derive(Clone, Copy)]
pub struct Balance {
    pub first: Arrow,
    pub second: Arrow,
    pub last: Arrow,
    pub first_weight: u128,
    pub second_weight: u128,
    pub last_weight: u128,
}

/// What one more arrow makes of a cone.
#[derive(Clone, Copy)]
pub enum Step {
    Wider(Cone),
    Balanced(Balance),
}

/// Positive where `b` is to the left of `a`, negative where it is to the right.
fn turn_between(a: Arrow, b: Arrow) -> i128
    ensures value { result ≡ turn a b.x b.y }
    ensures small { unsigned_abs result ≤ 2 ^ 83 }
{
    a.x * b.y - a.y * b.x
}

/// Positive where `b` is ahead of `a`, negative where it is behind.
fn ahead_of(a: Arrow, b: Arrow) -> i128
    ensures value { result ≡ ahead a b.x b.y }
    ensures small { unsigned_abs result ≤ 2 ^ 83 }
{
    a.x * b.x + a.y * b.y
}

/// The smallest cone with one arrow more, or the weights at which arrows cancel.
pub fn widened(cone: Cone, arrow: Arrow) -> Step
    requires proper { IsProper cone }
    requires earlier { EachArrow (λ a. a.index < arrow.index) cone }
    ensures { MatchStep result (IsWider cone arrow) (IsBalance cone arrow) }
{
    match cone {
        Cone::Empty => alone(arrow),
        Cone::Ray(only) => beside_ray(only, arrow),
        Cone::Wedge(right, left) => beside_wedge(right, left, arrow),
    }
}

/// The first arrow. One that is zero cancels alone.
fn alone(arrow: Arrow) -> Step
    ensures { MatchStep result (IsWider Cone.Empty arrow) (IsBalance Cone.Empty arrow) }
{
    if arrow.x == 0 && arrow.y == 0 {
        return Step::Balanced(Balance {
            first: arrow,
            second: arrow,
            last: arrow,
            first_weight: 0,
            second_weight: 0,
            last_weight: 1,
        });
    }
    Step::Wider(Cone::Ray(arrow))
}

/// One more arrow beside a ray. Straight behind it the two cancel, at weights by their products.
fn beside_ray(only: Arrow, arrow: Arrow) -> Step
    requires proper { pos 0 <ℤ ahead only only.x only.y }
    requires earlier { only.index < arrow.index }
    ensures { MatchStep result (IsWider (Cone.Ray only) arrow) (IsBalance (Cone.Ray only) arrow) }
{
    let side = turn_between(only, arrow);
    if side > 0 {
        return Step::Wider(Cone::Wedge(only, arrow));
    }
    if side < 0 {
        return Step::Wider(Cone::Wedge(arrow, only));
    }
    let front = ahead_of(only, arrow);
    if front > 0 {
        return Step::Wider(Cone::Ray(only));
    }
    Step::Balanced(Balance {
        first: only,
        second: only,
        last: arrow,
        first_weight: front.unsigned_abs(),
        second_weight: 0,
        last_weight: ahead_of(only, only).unsigned_abs(),
    })
}

/// One more arrow beside a wedge. In the opposite of the wedge, borders too, the three cancel:
/// each at the turn between the other two.
fn beside_wedge(right: Arrow, left: Arrow, arrow: Arrow) -> Step
    requires proper { pos 0 <ℤ turn right left.x left.y }
    requires right_earlier { right.index < arrow.index }
    requires left_earlier { left.index < arrow.index }
    requires apart { right.index ≢ left.index }
    ensures { MatchStep result (IsWider (Cone.Wedge right left) arrow) (IsBalance (Cone.Wedge right left) arrow) }
{
    let from_right = turn_between(right, arrow);
    let from_left = turn_between(left, arrow);
    if from_right > 0 {
        if from_left > 0 {
            Step::Wider(Cone::Wedge(right, arrow))
        } else {
            Step::Wider(Cone::Wedge(right, left))
        }
    } else if from_left < 0 {
        if from_right < 0 {
            Step::Wider(Cone::Wedge(arrow, left))
        } else {
            Step::Wider(Cone::Wedge(right, left))
        }
    } else {
        Step::Balanced(Balance {
            first: right,
            second: left,
            last: arrow,
            first_weight: from_left.unsigned_abs(),
            second_weight: from_right.unsigned_abs(),
            last_weight: turn_between(right, left).unsigned_abs(),
        })
    }
}

/// A vector whose product with each arrow of the cone is negative.
pub fn normal(cone: Cone) -> [i128; 2]
    requires { IsProper cone }
    ensures small { IsSmallNormal result }
    ensures behind { (x y : ℤ) → IsInCone cone x y → (x_of result *ℤ x +ℤ y_of result *ℤ y) <ℤ pos 0 }
{
    match cone {
        Cone::Empty => [0, 0],
        Cone::Ray(only) => [-only.x, -only.y],
        Cone::Wedge(right, left) => [right.y - left.y, left.x - right.x],
    }
}
