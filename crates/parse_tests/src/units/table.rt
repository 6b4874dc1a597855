//! Whole texts and what they read as, worked out by hand from the grammar.
//!
//! The tables are texts, which are read when the tests run: a line is a case, `TEXT :: NOTATION`, and
//! ` :: FAULTS` behind it where something is wrong with the text. A fault is `KIND@OFFSET+LENGTH`, in
//! UTF-16 code units from 0; those of lexemes come first, then those of brackets, and then those of
//! errors in the tree.

use crate::units::reading::{read, read_printed};
use std::test::Fail;
use unit_notation::Ranges;

// Each directive, with its prefix and its combinators, and words that begin a directive as names.
const DIRECTIVES: &str = "\
library a; :: (library a)
library a.b.c; :: (library a.b.c)
import 'u'; :: (import 'u')
import 'u' as p; :: (import 'u' as p)
import 'u' as p show a,b hide c; :: (import 'u' as p (show a b) (hide c))
import r'''u''' as as; :: (import r'''u''' as as)
import 'a$b'; :: (import (string 'a b '))
export 'u'; :: (export 'u')
export 'u' hide show show hide,on; :: (export 'u' (hide show) (show hide on))
part 'u'; :: (part 'u')
part of 'u'; :: (part of 'u')
part of a; :: (part of a)
part of a.b; :: (part of a.b)
library a;import 'u';part 'v';int b; :: (library a) (import 'u') (part 'v') (var int b)
int b;import 'u'; :: (var int b) (import 'u')
library(){}import(){}part()=>a; :: (function library {}) (function import {}) (function part => a)
part of; :: (error) :: Syntax@0+8
library; :: (error) :: Syntax@0+8
library a.; :: (error) :: Syntax@0+11
import u; :: (error) :: Syntax@0+9
import 'a'\"b\"; :: (error) :: Syntax@0+14
import 'u' show a,; :: (error) :: Syntax@0+19
import 'u' show a as p; :: (error) :: Syntax@0+23
import 'u' if(a)'v'; :: (error) :: ConditionalUri@0+20
import 'u' deferred as p; :: (error) :: Deferred@0+25
export 'u' as p; :: (error) :: Syntax@0+16
@a import 'u'; :: (error) :: Annotation@0+14";

// Classes and mixins by what stands before their members, names of types, functions and variables.
const DECLARATIONS: &str = "\
class C{} :: (class C {})
class A{}class B{} :: (class A {}) (class B {})
abstract class C{} :: (abstract class C {})
class C<X,Y extends List<X>>extends p.B<X>with M,N<Y>implements I,J{} :: (class C <X> <Y List<X>> extends p.B<X> with M N<Y> implements I J {})
class C with M{} :: (class C with M {})
@a @b abstract class C implements I{} :: @a @b (abstract class C implements I {})
mixin M{} :: (mixin M {})
@a mixin M<X>on A,B<X>implements I{int f(){return 1;}} :: @a (mixin M <X> on A B<X> implements I {(function int f {(return 1)})})
typedef T=int; :: (typedef T int)
typedef F=T Function<X>(X,[int a]); :: (typedef F (function T <X> (X) [a int]))
@a typedef F=void Function()?; :: @a (typedef F (function void ()?))
void main(){} :: (function void main {})
main()=>1; :: (function main => 1)
T?f<X,Y extends X>(X a,{required Y b,c=1}){} :: (function T? f <X> <Y X> (a X) {required b Y} {c = 1} {})
int get a=>b;void set a(int b){} :: (get int a => b) (set void a (b int) {})
get a{return 1;}set a(b)=>c; :: (get a {(return 1)}) (set a (b) => c)
get(){}set(a)=>b;int get(){} :: (function get {}) (function set (a) => b) (function int get {})
abstract(){}mixin()=>a;typedef(){} :: (function abstract {}) (function mixin => a) (function typedef {})
@a f(){}@b @c int d; :: @a (function f {}) @b @c (var int d)
var a;final b=1,c;final int d=2; :: (var a) (final b=1 c) (final int d=2)
int?a,b=1;List<int>c=[];p.T d; :: (var int? a b=1) (var List<int> c=(list)) (var p.T d)
void Function()f;dynamic a;Function b; :: (var (function void ()) f) (var dynamic a) (var Function b)
/*a*/ int b; // c :: (var int b)
a; :: (error) :: Syntax@0+2
f(); :: (error) :: Syntax@0+4
f()native; :: (error) :: Syntax@0+10
f()async{} :: (error) :: Async@0+10
const a=1; :: (error) :: Const@0+10
late int a; :: (error) :: Late@0+11
var a=1.5; :: (error) :: Double@0+10
external f(); :: (error) :: External@0+13
extension E on A{} :: (error) :: Extension@0+18
class A=B with C; :: (error) :: MixinApplication@0+17
class C implements I extends B{} :: (error) :: Syntax@0+32
typedef void F(); :: (error) :: Typedef@0+17
@a(1) int b; :: (error) :: Annotation@0+12";

// Members by their forms.
const MEMBERS: &str = "\
class C{var a;final b=1,c;int?d;} :: (class C {(var a) (final b=1 c) (var int? d)})
class C{static final a=1;static int b=2,c;static void d(){}} :: (class C {static (final a=1) static (var int b=2 c) static (function void d {})})
class C{C();C.n(this.a,[int b=1]);} :: (class C {(constructor C ;) (constructor C.n (this.a) [b int = 1] ;)})
class C{C(a):b=a,this.c=a+1,super(a);} :: (class C {(constructor C (a) : (= b a) (= c (+ a 1)) (super a) ;)})
class C{C():super.n(a,b:c){d;}C.r():this(1);C.s():this.n();} :: (class C {(constructor C : (super .n a b:c) {d;}) (constructor C.r : (this 1) ;) (constructor C.s : (this .n) ;)})
class C{C():a=(b){c;}C.d():a=(b){}as D;} :: (class C {(constructor C : (= a (parenthesis b)) {c;}) (constructor C.d : (= a (as (closure (b) {}) D)) ;)})
class C{C():a=(b){}as.D e;C.f():a=(b){}as(g){}} :: (class C {(constructor C : (= a (parenthesis b)) {}) (var as.D e) (constructor C.f : (= a (parenthesis b)) {}) (function as (g) {})})
class C{C(a)=>b;C c(){}D();} :: (class C {(function C (a) => b) (function C c {}) (function D ;)})
class C{factory C(a)=>b;factory C.n(){return c;}factory(){}} :: (class C {(factory C (a) => b) (factory C.n {(return c)}) (function factory {})})
class C{int get a=>b;get c;static get d{}} :: (class C {(get int a => b) (get c ;) static (get d {})})
class C{set a(int b){}void set c(d);static set e(f)=>g;} :: (class C {(set a (b int) {}) (set void c (d) ;) static (set e (f) => g)})
class C{void f();int g(a)=>a;T h<T>(T a){}} :: (class C {(function void f ;) (function int g (a) => a) (function T h <T> (a T) {})})
class C{get(){}set(a);static(){}operator(){}static static(){}} :: (class C {(function get {}) (function set (a) ;) (function static {}) (function operator {}) static (function static {})})
class C{A<B>operator;A<B>operator(a){}p.A?operator=b,c;A<B>operator+(d);} :: (class C {(var A<B> operator) (function A<B> operator (a) {}) (var p.A? operator=b c) (operator A<B> + (d) ;)})
class C{A<B>operator+e;int f;} :: (class C {(error) (var int f)}) :: Syntax@8+15
f(a,A<B>b,this.c,A this.d,p.A?this.e,[f,g=1,void h]){} :: (function f (a) (b A<B>) (this.c) (this.d A) (this.e p.A?) [f] [g = 1] [h void] {})
f(A<B>){}int g; :: (error) (var int g) :: Syntax@0+9
class C{C operator+(C a)=>a;bool operator==(Object a){return b;}} :: (class C {(operator C + (a C) => a) (operator bool == (a Object) {(return b)})})
class C{T operator[](int a);void operator[]=(int a,T b){}operator~();} :: (class C {(operator T [] (a int) ;) (operator void []= (a int) (b T) {}) (operator ~ ;)})
class C{operator-();operator*(a);operator/(a);operator~/(a);operator%(a);} :: (class C {(operator - ;) (operator * (a) ;) (operator / (a) ;) (operator ~/ (a) ;) (operator % (a) ;)})
class C{operator<<(a);operator>>(a);operator&(a);operator^(a);operator|(a);} :: (class C {(operator << (a) ;) (operator >> (a) ;) (operator & (a) ;) (operator ^ (a) ;) (operator | (a) ;)})
class C{operator<(a);operator<=(a);operator>(a);operator>=(a);} :: (class C {(operator < (a) ;) (operator <= (a) ;) (operator > (a) ;) (operator >= (a) ;)})
class C{@a @b C();@a static int c;@a get d=>e;@a operator~();@a factory C.n(){}} :: (class C {@a @b (constructor C ;) @a static (var int c) @a (get d => e) @a (operator ~ ;) @a (factory C.n {})})
class C{f(){g(){}int h=1;}} :: (class C {(function f {(function g {}) (var int h=1)})})
mixin M{M();M.n();} :: (mixin M {(function M ;) (error)}) :: Syntax@12+6
class C{D.n();} :: (class C {(error)}) :: Syntax@8+6
class C{f()native;} :: (class C {(error)}) :: Syntax@8+10
class C{static void f();} :: (class C {(error)}) :: Syntax@8+16
class C{factory C();} :: (class C {(error)}) :: Syntax@8+12
class C{factory C()=D;} :: (class C {(error)}) :: RedirectingFactory@8+14
class C{operator!=(a);} :: (class C {(error)}) :: Syntax@8+14
class C{const C();external f();covariant int a;} :: (class C {(error) (error) (error)}) :: Const@8+10 External@18+13 Covariant@31+16";

// What derives nothing, between items, members and statements, and brackets without their partners.
const RECOVERY: &str = "\
void main(){print(1);int = ;print(true+1);} :: (function void main {(call print 1); (error) (call print (+ true 1));}) :: Syntax@21+7
void main(){assert(1<2);} :: (function void main {(error)}) :: Assert@12+12
enum E{a}void main(){} :: (error) (function void main {}) :: Enum@0+9
int = ;void main(){} :: (error) (function void main {}) :: Syntax@0+7
a b c;int d; :: (error) (var int d) :: Syntax@0+6
f(){};int a :: (function f {}) (error) (error) :: Syntax@5+1 Syntax@6+5
class{int a;}int b; :: (error) (var int b) :: Syntax@0+13
class C int a;int b; :: (error) (var int b) :: Syntax@0+14
class C{}class D{;}int a; :: (class C {}) (class D {(error)}) (var int a) :: Syntax@17+1
class C{int a;b c d;f(){}@;g();} :: (class C {(var int a) (error) (function f {}) (error) (function g ;)}) :: Syntax@14+6 Annotation@25+2
class C{if(a){b;}c;int d;} :: (class C {(error) (error) (var int d)}) :: Syntax@8+9 Syntax@17+2
class C{int a}int b; :: (class C {(error)}) (var int b) :: Syntax@8+5
class C{f(){a b c;d;}int e;} :: (class C {(function f {(error) d;}) (var int e)}) :: Syntax@12+6
f(){if(a){b;}else}int c; :: (function f {(if a (block {b;})) (error)}) (var int c) :: Syntax@13+4
f(){switch(a){case 1:b c d;case 2:}} :: (function f {(switch a (case 1 {(error)}) (case 2 {}))}) :: Syntax@21+6
f(){var a=(){b c d;};}g(){} :: (function f {(var a=(closure {(error)}))}) (function g {}) :: Syntax@13+6
void main(){print(1); :: (function void main {(call print 1);}) :: UnclosedGroup@11+1
class C{int a;f(){b; :: (class C {(var int a) (function f {b;})}) :: UnclosedGroup@7+1 UnclosedGroup@17+1
f(){(a;}int b; :: (function f {(error)}) (var int b) :: UnclosedGroup@4+1 Syntax@4+3
f(){}}int a; :: (function f {}) (var int a) :: UnopenedGroup@5+1
var a='b; :: (error) :: UnterminatedString@6+3 Syntax@0+9
var é=1;int b; :: (error) (var int b) :: ProfileIdentifier@4+1 Syntax@0+8";

// Where nodes stand: from the first to the last of their tokens.
const RANGES: &str = "\
void main(){} :: 0+13:0+13:0+13:(function 0+4:void main 11+2:{})
 :: 0+0:
 int a = 1 ; :: 1+11:1+11:1+9:(var 1+3:int 5+5:a=9+1:1)
@a f()=>b; :: 0+10:0+10:0+2:@a 3+7:(function f 6+4:=> 8+1:b)
import 'u' as p show a,b; :: 0+25:0+25:(import 7+3:'u' as 14+1:p 16+8:(show 21+1:a 23+1:b))
library a.b;part of c; :: 0+22:0+12:(library 8+1:a.10+1:b) 12+10:(part of 20+1:c)
@a class C<X extends T>extends B{@b C.n(this.a):b=1,super(c);} :: 0+62:0+62:0+2:@a (class C 11+11:<X 21+1:T> extends 31+1:B {33+28:33+2:@b (constructor 36+3:C.n 40+6:(this.a) : 48+3:(= b 50+1:1) 52+8:(super 58+1:c) 60+1:;)})
class C{int get a=>b;static var c;T operator[]=(d,e){}} :: 0+55:0+55:(class C {8+13:8+13:(get 8+3:int a 17+4:=> 19+1:b) 21+13:static 28+5:(var 32+1:c) 34+20:(operator 34+1:T 44+3:[]= 48+1:(d) 50+1:(e) 52+2:{})})
f(){try{}on p.T<A>catch(e,s){}finally{}} :: 0+40:0+40:0+40:(function f 3+37:{4+35:(try 7+2:{} 9+21:(catch on 12+6:p.T<16+1:A> e s 28+2:{}) finally 37+2:{})})
void main(){print(1);int = ;print(true+1);} :: 0+43:0+43:0+43:(function 0+4:void main 11+32:{12+9:12+8:(call 12+5:print 18+1:1); 21+7:(error) 28+14:28+13:(call 28+5:print 34+6:(+ 34+4:true 39+1:1));}) :: Syntax@21+7
void main(){print(1); :: 0+21:0+21:0+21:(function 0+4:void main 11+10:{12+9:12+8:(call 12+5:print 18+1:1);}) :: UnclosedGroup@11+1
int = ; /*a*/ class C { @ ; } // :: 0+29:0+7:(error) 14+15:(class C {24+3:(error)}) :: Syntax@0+7 Annotation@24+3
var a='😀';int b; :: 0+17:0+11:0+10:(var 4+6:a=6+4:6+4:'😀') 11+6:11+5:(var 11+3:int 15+1:b)";

#[test]
fn texts_read_as_their_lines_say(rt: HostRuntime) -> Result<(), Fail> {
    for table in [DIRECTIVES, DECLARATIONS, MEMBERS, RECOVERY] {
        for line in table.lines() {
            let (text, reading) = line.split_once(" :: ").ok_or("no reading")?;
            let found = read(rt.alloc(), text, Ranges::Hidden)?;
            assert_eq!(rt; found.as_str(), reading, "{text}");
        }
    }
    Ok(())
}

#[test]
fn printed_texts_read_as_they_did(rt: HostRuntime) -> Result<(), Fail> {
    for table in [DIRECTIVES, DECLARATIONS, MEMBERS, RECOVERY] {
        for line in table.lines() {
            let (text, reading) = line.split_once(" :: ").ok_or("no reading")?;
            let tree = reading.split(" :: ").next().unwrap_or(reading);
            let found = read_printed(rt.alloc(), text)?;
            assert_eq!(rt; found.as_str(), tree, "{text}");
        }
    }
    Ok(())
}

#[test]
fn nodes_stand_where_their_lines_say(rt: HostRuntime) -> Result<(), Fail> {
    for line in RANGES.lines() {
        let (text, reading) = line.split_once(" :: ").ok_or("no reading")?;
        let found = read(rt.alloc(), text, Ranges::Shown)?;
        assert_eq!(rt; found.as_str(), reading, "{text}");
    }
    Ok(())
}
