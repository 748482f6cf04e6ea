// Whether a list of clause words fits a number of variables: refusal 11.
ghost use Rattle.std.specs.Prelude.{◌≡◌, ◌&&◌, ◌+◌, ◌≤◌, length};
ghost use Rattle.lists.specs.Lists.{all};
ghost use Rattle.cnf.specs.Clauses.{clauses_in, whole, clause_fits};
ghost use Rattle.search.specs.Marks.{MarksBelow};

// A mark for each variable, none in use.
fn no_marks() -> [usize; 780]
    ensures { MarksBelow result 1 }
{
    [0usize; 780]
}

// Whether the variables of two literals are below the count and differ.
fn two_fit(literals: &[u16], variables: usize) -> bool
    requires { length literals.now ≡ 2 }
    ensures { result ≡ clause_fits variables literals.now }
{
    let x = usize::from(literals[0] / 2);
    let y = usize::from(literals[1] / 2);
    if variables <= x {
        return false;
    }
    if variables <= y {
        return false;
    }
    if x == y {
        return false;
    }
    true
}

// The same of three.
fn three_fit(literals: &[u16], variables: usize) -> bool
    requires { length literals.now ≡ 3 }
    ensures { result ≡ clause_fits variables literals.now }
{
    let x = usize::from(literals[0] / 2);
    let y = usize::from(literals[1] / 2);
    let z = usize::from(literals[2] / 2);
    if variables <= x {
        return false;
    }
    if variables <= y {
        return false;
    }
    if variables <= z {
        return false;
    }
    if x == y {
        return false;
    }
    if x == z {
        return false;
    }
    if y == z {
        return false;
    }
    true
}

// Whether each variable is below the count and stands once: those met in this clause have its mark, all others a lower one. Most clauses are short, and
// need no marks.
fn clause_fits(literals: &[u16], variables: usize, marks: &mut [usize; 780], mark: usize) -> bool
    requires { (variables ≤ 780) × MarksBelow marks.old mark }
    ensures { (result ≡ clause_fits variables literals.now) × MarksBelow marks.new (mark + 1) }
{
    if literals.len() == 3 {
        return three_fit(literals, variables);
    }
    if literals.len() == 2 {
        return two_fit(literals, variables);
    }
    'literals: for i in (0..literals.len()).rev() {
        let x = usize::from(literals[i] / 2);
        if variables <= x {
            return false;
        }
        if marks[x] == mark {
            return false;
        }
        marks[x] = mark;
    }
    true
}

// Whether every clause is all there and fits. A clause's mark is the place of its first literal.
pub fn list_fits(list: &[u16], variables: usize) -> bool
    requires { variables ≤ 780 }
    ensures { result ≡ (whole list.now && all (clause_fits variables) (clauses_in list.now)) }
{
    let mut marks = no_marks();
    let mut at: usize = 0;
    'clauses: while at < list.len() {
        let k = usize::from(list[at]);
        at += 1;
        if list.len() - at < k {
            return false;
        }
        let end = at + k;
        if !clause_fits(&list[at..end], variables, &mut marks, at) {
            return false;
        }
        at = end;
    }
    true
}
