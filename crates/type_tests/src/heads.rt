//! What stands before the parts of programs that the tests of types vary, in lines 1 to 9.

/// Lines 1 to 9, up to the body of a function with a scalar, an element and two endpoints, three results, and
/// variables: n is a number, d one of scale 1, b a vector, c a matrix, z a vector of scale 1.
pub const BODY: &str = "element P x : int(0); y : int(2); end
element S k : int(0); e : int(3);
v : vector[3](int(1)); w : vector[2](int(1)); m : matrix[2,3](int(1)); end
extern ps : set{P};
extern es : set{S}(ps, ps);
func f(e : P) -> (r : vector[ps](int(0))) end
func g(a : int(1), s : S, p : (P*2)) -> (r : vector[ps](int(0)),
t : vector[ps](vector[3](int(1))), u : matrix[ps,ps](matrix[2,3](int(1))))
var n = 1; var d = 1.5; var b = [1,2,3]; var c = [1,2;3,4]; var z = [1.0,2.0,3.0];
";

/// Lines 1 to 9, with variables: n is a number, d one of scale 1, B a vector over ps, A a matrix over ps and ps, H one of
/// blocks over ps and qs, U one of numbers over the same.
pub const STATE: &str =
    "element P x : int(0); y : int(2); v : vector[3](int(1)); m : matrix[2,3](int(1)); end
element S k : int(0); v : vector[3](int(1)); end
extern ps : set{P}; extern qs : set{P};
extern es : set{S}(ps, ps); extern ts : set{S}(qs, qs, qs);
func f(s : S, p : (P*2)) -> (r : vector[ps](int(0)), t : matrix[ps,ps](int(0))) end
func g(a : int(1), e : P) -> (r : vector[ps](int(2))) r(e) = 1.00; end
func h(e : P) -> (t : matrix[ps,qs](matrix[2,3](int(1))), u : matrix[ps,qs](int(0))) end
proc main
var n = 1; var d = 1.5; var B, A = map f to es reduce +; var H, U = map h to ps reduce +;
";

/// Element types with sets in lines 1 to 9: es joins points of ps, fs and ts those of qs; ones and threes have another
/// number of endpoints.
pub const SETS: &str = "element P x : int(0); end
element Q x : int(0); end
element S k : int(0); end
extern ps : set{P};
extern qs : set{P};
extern es : set{S}(ps, ps);
extern fs : set{S}(qs, qs);
extern ones : set{S}(ps);
extern threes : set{S}(ps, ps, ps);
";
