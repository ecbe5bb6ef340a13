//! Terms with what they give: their nodes, or their first fault.

/// What a case shows, its text and what it gives.
pub const TERMS: &str = "\
    a numeral§\
        5§\
        5 ¶\
    the greatest numeral§\
        9223372036854775807§\
        9223372036854775807 ¶\
    a wide numeral§\
        9223372036854775808§\
        TooWide 0 ¶\
    a decimal§\
        1.5§\
        CommandForm 0 ¶\
    a text literal§\
        \"a\"§\
        CommandForm 0 ¶\
    a keyword§\
        (not :k)§\
        CommandForm 5 ¶\
    no form§\
        ()§\
        CommandForm 0 ¶\
    a predicate without arguments§\
        r§\
        p2 ¶\
    such a predicate applied to nothing§\
        (r)§\
        CommandForm 0 ¶\
    such a predicate applied§\
        (r 1)§\
        Arity 0 ¶\
    a predicate§\
        (p 1)§\
        1 p0,0 ¶\
    a predicate that stands bare§\
        p§\
        Arity 0 ¶\
    a predicate at a wrong sort§\
        (q true false)§\
        SortMismatch 8 ¶\
    a predicate at nothing§\
        (p)§\
        Arity 0 ¶\
    one argument of and§\
        (and true)§\
        t And,0 ¶\
    no argument of and§\
        (and)§\
        Arity 0 ¶\
    an operator that stands bare§\
        and§\
        UnknownSymbol 0 ¶\
    a truth value at the head§\
        (true)§\
        CommandForm 0 ¶\
    a truth value that is applied§\
        (true 1)§\
        Arity 0 ¶\
    a reserved word§\
        let§\
        UnknownSymbol 0 ¶\
    a reserved word at the head§\
        (! true :named a)§\
        UnknownSymbol 1 ¶\
    a reserved word between bars§\
        (|let| 1)§\
        1 p3,0 ¶\
    a numeral at the head§\
        (5 1)§\
        CommandForm 1 ¶\
    a list at the head§\
        ((p 1) 1)§\
        CommandForm 1 ¶\
    divisibility§\
        ((_ divisible 3) 7)§\
        7 3|0 ¶\
    divisibility between bars§\
        ((_ |divisible| 3) 7)§\
        7 3|0 ¶\
    divisibility by a name§\
        ((_ divisible x) 7)§\
        CommandForm 1 ¶\
    divisibility by nothing§\
        ((_ divisible 0) 7)§\
        ZeroDivisor 0 ¶\
    a sort before a divisor§\
        ((_ divisible 0) true)§\
        SortMismatch 17 ¶\
    a wide divisor§\
        ((_ divisible 9223372036854775808) 7)§\
        TooWide 0 ¶\
    divisibility of two§\
        ((_ divisible 3) 7 8)§\
        Arity 0 ¶\
    the second sum§\
        (+ 1 true)§\
        SortMismatch 5 ¶\
    the third side§\
        (= 1 2 true)§\
        SortMismatch 7 ¶\
    a condition§\
        (ite 1 2 3)§\
        SortMismatch 5 ¶\
    two branches§\
        (ite true 2 false)§\
        SortMismatch 12 ¶\
    a divisor of 0§\
        (div 7 0)§\
        ZeroDivisor 0 ¶\
    a sort before a zero§\
        (div true 0)§\
        SortMismatch 5 ¶\
    a square§\
        (forall ((x Int)) (= (* x x) 1))§\
        NotLinear 21 ¶\
    the factors in front§\
        (* 4294967296 2147483648 0)§\
        TooWide 0 ¶\
    a wide difference§\
        (- 9223372036854775807 (- 1))§\
        TooWide 0 ¶\
    a sum that is wide on the way§\
        (+ 9223372036854775807 1 (- 1))§\
        9223372036854775807 1 1 Sub,2 Add,0,1,3 ¶\
    a name of let§\
        (let ((x 1)) (= x 2))§\
        1 =0 2 Eq,1,2 let,0:3 ¶\
    names side by side§\
        (let ((x 1)) (let ((x 2) (y x)) (= x y)))§\
        1 2 =0 =1 =2 Eq,3,4 let,1,2:5 let,0:6 ¶\
    a name of its own let§\
        (let ((x 1) (y x)) true)§\
        UnknownSymbol 15 ¶\
    a name twice§\
        (let ((x 1) (x 2)) true)§\
        Redeclared 13 ¶\
    terms before names§\
        (let ((x 1) (x y)) true)§\
        UnknownSymbol 15 ¶\
    the form of names before terms§\
        (let ((x zz) (5 1)) true)§\
        CommandForm 14 ¶\
    no names§\
        (let () true)§\
        CommandForm 5 ¶\
    no body§\
        (let ((x 1)))§\
        CommandForm 0 ¶\
    a constant by its name§\
        (let ((x 2)) (* x x))§\
        2 =0 =0 Mul,1,2 let,0:3 ¶\
    a variable twice§\
        (forall ((x Int) (x Int)) true)§\
        Redeclared 18 ¶\
    a sort that is none§\
        (forall ((x Real)) true)§\
        UnknownSort 12 ¶\
    an item that is no pair§\
        (forall ((x Int) y) true)§\
        CommandForm 8 ¶\
    a body that is no truth§\
        (forall ((x Int)) x)§\
        SortMismatch 18 ¶\
    two variables§\
        (exists ((x Int) (b Bool)) b)§\
        b1 any0+2:0 ¶\
    variables by their place§\
        (and (forall ((x Bool)) x) (exists ((y Bool)) y))§\
        b0 all0+1:0 b1 any1+1:2 And,1,3 ¶\
    an inner variable§\
        (forall ((x Int)) (exists ((x Bool)) x))§\
        b1 any1+1:0 all0+1:1 ¶\
    the outer one again§\
        (forall ((x Bool)) (and (exists ((x Bool)) x) x))§\
        b1 any1+1:0 b0 And,1,2 all0+1:3 ¶\
    a let around a variable§\
        (forall ((x Bool)) (let ((x true)) x))§\
        t =0 let,0:1 all0+1:2 ¶\
    a bound name at the head§\
        (let ((f true)) (f 1))§\
        UnknownSymbol 17 ¶\
    a truth value as a name§\
        (forall ((true Bool)) true)§\
        b0 all0+1:0 ¶\
    the first of two faults§\
        (and zz (or))§\
        UnknownSymbol 5 ¶\
    the head before its arguments§\
        (foo zz)§\
        UnknownSymbol 1 ¶\
    the number before the arguments§\
        (not zz true)§\
        Arity 0 ¶\
    ";
